//! Priorities and stack sizes as scripts give them.
ghost use Rattle.std.specs.Prelude.{◌≡◌, ◌≤◌, is_some, IfSome};
ghost use Rattle.thr_parts.specs.Threads.{natural};
ghost use Rattle.thr_parts.specs.Scheduling.{is_within, is_prio, is_stack_size};

/// The number, where it lies from low to high.
fn within(low: u32, high: u32, number: i64) -> Option<u32>
    ensures is { is_some result ≡ is_within low high number }
    ensures number { IfSome result (λ n. n ≡ natural number) }
    ensures least { IfSome result (λ n. low ≤ n) }
    ensures most { IfSome result (λ n. n ≤ high) }
{
    match u32::try_from(number) {
        Err(_) => None,
        Ok(n) => {
            if n < low {
                return None;
            }
            if n > high {
                return None;
            }
            Some(n)
        }
    }
}

/// The number as a priority, where it can be one.
pub fn as_prio(number: i64) -> Option<u8>
    ensures is { is_some result ≡ is_prio number }
    ensures number { IfSome result (λ n. n ≡ natural number) }
    ensures most { IfSome result (λ n. n ≤ 31) }
{
    match within(0, 31, number) {
        None => None,
        Some(n) => Some(n as u8),
    }
}

/// The number as a stack size in frames, where it can be one.
pub fn as_stack_size(number: i64) -> Option<u32>
    ensures is { is_some result ≡ is_stack_size number }
    ensures number { IfSome result (λ n. n ≡ natural number) }
    ensures least { IfSome result (λ n. 16 ≤ n) }
    ensures most { IfSome result (λ n. n ≤ 1024) }
{
    within(16, 1024, number)
}

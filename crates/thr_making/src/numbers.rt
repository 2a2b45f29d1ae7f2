//! The numbers in a made script.

ghost use Rattle.std.specs.Prelude.{◌≡◌, ◌≤◌};
ghost use Rattle.thr_verdict.specs.Made.{rounds, share};

/// How many rounds the worker of this number makes.
pub(crate) fn rounds(n: u32, i: u32) -> u32
    ensures value { result ≡ rounds n i }
    ensures few { result ≤ 500 }
{
    let place = (u64::from(n) + 7 * u64::from(i)) % 50;
    10 * (1 + place as u32)
}

/// What it adds in each round.
pub(crate) fn share(n: u32, i: u32) -> u32
    ensures value { result ≡ share n i }
    ensures few { result ≤ 99 }
{
    ((3 * u64::from(n) + 11 * u64::from(i)) % 100) as u32
}

//! Scripts from their texts (docs/script.md, "Reading").

ghost use Rattle.std.specs.Prelude.{◌≡◌, ◌<◌, ◌-◌, ◌^◌, [], length, IfOk, IfErr};
ghost use Rattle.thr_syntax.specs.declared.tree.Script.{Script};
ghost use Rattle.thr_text.specs.declared.fault.ParseFault.TheVariants as fault;
ghost use Rattle.thr_text.specs.Reading.{Reads, faults};
ghost use Rattle.thr_grammar.specs.Parsing.{IsFirstStated};

use std::alloc::Global;
use thr_blocks::build::build_items;
use thr_blocks::check::check_blocks;
use thr_forms::scan::read_lines;
use thr_naming::judge_lines;
use thr_resolving::resolve::resolve_lines;
use thr_syntax::tree::Script;
use thr_text::fault::ParseFault;

/// The script that the bytes are the text of, or their first stated fault. The lines are read, their blocks and then their
/// names are judged, and the tree is built last, which can't fail but for want of memory. `check` and `run` call it.
pub fn parse(alloc: Global, bytes: &[u8]) -> Result<Script, ParseFault>
    requires { length bytes.now < 2 ^ 32 - 1 }
    ensures reads { IfOk result (λ s. Reads bytes.now s) }
    ensures faultless { IfOk result (λ s. faults bytes.now ≡ []) }
    ensures only { (s : Script) → Reads bytes.now s → IfOk result (λ t. t ≡ s) }
    ensures fault { IfErr result (λ f. IsFirstStated f (faults bytes.now)) }
    ensures refused { (s : Script) → Reads bytes.now s → IfErr result (λ f. f ≡ fault.NoMemory) }
{
    let reading = read_lines(alloc, bytes)?;
    let lines = reading.lines.as_slice();
    check_blocks(alloc, lines, reading.end)?;
    let table = judge_lines(alloc, lines, reading.end)?;
    let forms = resolve_lines(alloc, &table, lines)?;
    let items = build_items(alloc, forms)?;
    let names = table.names(alloc)?;
    Ok(Script { names, items })
}

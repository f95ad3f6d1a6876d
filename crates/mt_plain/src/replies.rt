// The reply of a SELECT.
ghost use Rattle.std.specs.Prelude.{◌≡◌, ◌++◌, IfOk, OnOk};
ghost use Rattle.std.specs.List.{concat};
ghost use Rattle.part_history.specs.mt_model.Reply as reply;

use mt_base::NoMemory;
use mt_values::Bytes;
use part_history::mt_model::rows_line;
use std::alloc::Global;

/// The reply of a SELECT: its head, and its lines.
pub fn rows_reply(alloc: Global, lines: &[Bytes], place: u64) -> Result<Vec<u8>, NoMemory>
    ensures { IfOk result (λ text. text.items ≡ reply.rows_reply lines.now place) }
{
    let mut text = rows_line(alloc, lines.len(), place)?;
    push_lines(&mut text, lines)?;
    Ok(text)
}

/// Adds lines at the end of a text.
#[tactic(auto, using(crate::proofs::MtModelLists::concat_more))]
fn push_lines(text: &mut Vec<u8>, lines: &[Bytes]) -> Result<(), NoMemory>
    ensures { OnOk result (text.new.items ≡ text.old.items ++ concat lines.now) }
{
    for line in lines {
        text.extend_from_slice(line.as_slice())?;
    }
    Ok(())
}

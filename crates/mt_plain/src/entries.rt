// Entries at the end of a history.
ghost use Rattle.std.specs.Prelude.{◌≡◌, ◌∷◌, [], OnOk, OnErr};
ghost use Rattle.part_history.specs.mt_model.History.{entered};

use mt_base::NoMemory;
use mt_values::{Command, Entry};

/// Adds a command of session 0 at the end of a history.
pub fn enter(history: &mut Vec<Entry>, command: Command) -> Result<(), NoMemory>
    ensures ok { OnOk result (history.new.items ≡ entered history.old.items 0 (command ∷ [])) }
    ensures err { OnErr result (history.new.items ≡ history.old.items) }
{
    history.push(Entry {
        session: 0,
        command,
    })?;
    Ok(())
}

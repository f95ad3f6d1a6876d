// Which columns a SELECT reads, each once, and where the selected ones are among them.
ghost use Rattle.std.specs.Prelude.{◌≡◌, ◌⊎◌, ◌<◌, ◌++◌, ◌∷◌, [], All, IfOk, Some, length, slice_get};
ghost use Rattle.final_fold.specs.Picks.{AreFound, IsPickOf};

use mt_base::NoMemory;
use std::alloc::Global;

/// The columns that a SELECT reads, and those that it shows. A column is read once, however often it is selected.
#[derive(Drop)]
pub struct Picked {
    /// The places of the columns that are read, in the order in which the SELECT first has them.
    pub read: Vec<u32>,
    /// Of each selected column its position among those that are read, counted from 0.
    pub shown: Vec<u32>,
}

/// What is read where the columns at these places are selected, of a table with `width` columns. Each place is looked at once.
///
/// `NoMemory` where an allocation failed, or a position does not fit 32 bits.
pub fn pick_columns(alloc: Global, width: usize, places: &[u32]) -> Result<Picked, NoMemory>
    requires { All (λ place. place < width) places.now }
    ensures { IfOk result (IsPickOf places.now) }
{
    let mut found = vec![in alloc; None; width]?;
    let mut read = Vec::new(alloc);
    let mut shown = Vec::with_capacity(alloc, places.len())?;
    for place in places {
        let at = find_or_add(&mut found, &mut read, *place)?;
        shown.push(at)?;
    }
    Ok(Picked { read, shown })
}

/// The position of a column among those that are read, which it joins as the last where it is not among them.
///
/// `NoMemory` where an allocation failed, or the position does not fit 32 bits.
fn find_or_add(
    found: &mut Vec<Option<u32>>,
    read: &mut Vec<u32>,
    place: u32,
) -> Result<u32, NoMemory>
    requires within { place < length found.old.items }
    requires found { AreFound found.old.items read.old.items }
    ensures there { IfOk result (λ at. slice_get read.new.items at ≡ Some place) }
    ensures found { IfOk result (λ at. AreFound found.new.items read.new.items) }
    ensures width { IfOk result (λ at. length found.new.items ≡ length found.old.items) }
    ensures grown { IfOk result (λ at. (read.new.items ≡ read.old.items)
        ⊎ (read.new.items ≡ read.old.items ++ place ∷ [])) }
{
    if let Some(at) = found[place as usize] {
        return Ok(at);
    }
    let Ok(at) = u32::try_from(read.len()) else {
        return Err(NoMemory);
    };
    read.push(place)?;
    found[place as usize] = Some(at);
    Ok(at)
}

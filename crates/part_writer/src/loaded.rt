// What is kept of a part in memory.
ghost use Rattle.std.specs.Prelude.{◌≡◌, IfOk};

use mt_base::{NoMemory, Seq, Twin};
use mt_values::{Manifest, Schema};
use primary_marks::{Marks, Places};
use skip_index::Index;
use std::alloc::Global;
use std::marker::Model;
use std::ops::Deref;
use std::sync::Arc;

/// What is kept of a part in memory, beside its folder.
#[derive(Drop)]
pub struct Loaded {
    /// The schema of its table, so that a part and an arm are all that reading and checking take.
    pub schema: Schema,
    pub manifest: Manifest,
    /// The primary keys of the rows with which its granules begin, and of its last row.
    pub marks: Marks,
    /// Where its granules begin in the files of its columns, and the lengths of these.
    pub places: Places,
    /// What its skip indexes keep of its blocks, in the order of the schema.
    pub indexes: Seq<Index>,
}

/// What is kept of a part, which is in memory once: its copies share it. Contracts see what is kept.
#[derive(Drop)]
pub struct SharedLoaded {
    held: Arc<Loaded, Global>,
}

impl Model for SharedLoaded {
    ghost use Rattle.std.specs.Arc.{arc_value};
    ghost use Rattle.part_writer.specs.declared.loaded.Loaded.{Loaded as Kept};

    ghost Value = { Kept };

    ghost view = { λ s. arc_value s.held };
}

impl SharedLoaded {
    /// What is kept, to be shared.
    ///
    /// `NoMemory` where an allocation failed.
    pub fn of(alloc: Global, loaded: Loaded) -> Result<Self, NoMemory>
        ensures { IfOk result (λ s. s ≡ loaded) }
    {
        let held = Arc::new(alloc, loaded)?;
        Ok(SharedLoaded { held })
    }
}

impl Deref for SharedLoaded {
    ghost use Rattle.std.specs.Prelude.{◌≡◌};

    type Target = Loaded;

    ghost deref_gives = { λ shared loaded. loaded ≡ shared };

    fn deref(&self) -> &Loaded {
        &self.held
    }
}

impl Twin for SharedLoaded {
    /// One hold more on what is kept. Takes no memory.
    fn twin(&self, _alloc: Global) -> Result<Self, NoMemory> {
        let held = Arc::try_clone(&self.held)?;
        Ok(SharedLoaded { held })
    }
}

// What follows of a store that stands for a history. The function has an empty body and the law as its contract.
ghost use Rattle.std.specs.Prelude.{All};
ghost use Rattle.table_core.specs.mt_model.History.{History};
ghost use Rattle.table_core.specs.Core.{Core, IsCore, IsSnapshot};
ghost use Rattle.root_store.specs.declared.store.CoreStore.{CoreStore};
ghost use Rattle.root_store.specs.Cores.{ShowsCore, ShowsCoreOf};
ghost use Rattle.root_store.specs.Stores.{CoreStands};

use mt_outside::Dir;

/// A store that stands for a history shows a state of the core with that history. What always holds of the core holds of each
/// state that a store shows, where it holds of the snapshots.
pub fn stores_show_the_core<D: Dir>()
    ensures some { (h : History) (store : CoreStore D)
        → CoreStands D.files h store → ShowsCoreOf D.files h store }
    ensures holds { (store : CoreStore D) (core : Core) → ShowsCore D.files store core
        → All (IsSnapshot core.history) core.snapshots → IsCore core }
{}

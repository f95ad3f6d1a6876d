// A root that is open, and its turns.
ghost use Rattle.std.specs.Prelude.{◌≡◌, ◌<◌, IfOk, IsSome, IsTrue, Some, is_some, length};
ghost use Rattle.root_commits.specs.Commits.{insert_into, partition_of_block};
ghost use Rattle.root_commits.specs.Publications.{adding};
ghost use Rattle.root_commits.specs.Turns.{CommitsCreate, CommitsPart, storage};
ghost use Rattle.root_commits.specs.mt_model.History.{IsInsertInto, IsTableSchema};
ghost use Rattle.root_commits.specs.part_set.RootNames.{is_table};
ghost use Rattle.root_commits.specs.root_store.Soundness.{IsReady};
ghost use Rattle.root_commits.specs.root_store.Stores.{table_at};
ghost use Rattle.root_commits.specs.root_store.declared.store.Table.{Table as Made};
ghost use Rattle.shared_store.specs.Engines.{GoesOn, IsOpen, Opened, Snaps, root_in, schema_kept};
ghost use Rattle.shared_store.specs.Works.{DropsWork, Frees, PutsWork, TakesPair, TakesWhole};

use crate::work::{Put, TakeFault, Work, merge_run, take_up};
use merge_select::{Busy, Pick, Scope, pick, pick_all};
use mt_base::{NoMemory, Partition, Policy, Twin};
use mt_outside::{Arm, Dir, Disk};
use mt_values::{Annals, Block, Create, Name, Schema};
use root_commits::part_reader::Part;
use root_commits::part_set::Snap;
use root_commits::part_writer::SealedPart;
use root_commits::root_store::CoreStore;
use root_commits::stage_dir::Sealed;
use root_commits::{Returned, commit_create, commit_part};
use std::alloc::Global;
use std::marker::Model;

/// A root that is open: what is kept of it in memory, its disk, the annals of its commands, and the policy of its
/// merges.
///
/// Between two turns the store is sound, and the disk's count of faults is at least the one at opening, which is below
/// the last of 64 bits. While it is that one, each name of the disk is the entry of a table of the store, or a part of
/// one whose name ends by the number that the table drew last, and the visible parts are exactly the store's.
#[derive(Drop)]
pub struct Engine<F: Dir, R: Arm<Dir = F>, D: Disk<Arm = R>, A: Annals> {
    store: CoreStore<F>,
    disk: D,
    annals: A,
    policy: Policy,
}

impl<F: Dir, R: Arm<Dir = F>, D: Disk<Arm = R>, A: Annals> Model for Engine<F, R, D, A> {
    ghost use Rattle.std.specs.Coded.{codes};
    ghost use Rattle.std_collections.specs.Layout.BTreeMap.{btree_map_code};
    ghost use Rattle.mt_values.specs.PolishCode.{condition_code};
    ghost use Rattle.root_commits.specs.Turns.{storage};
    ghost use Rattle.root_commits.specs.root_store.Soundness.{IsReady};
    ghost use Rattle.shared_store.specs.Engines.{Opened};

    ghost Value = { Opened F };

    ghost coded = { Prim.hlevel (codes, btree_map_code, condition_code) };

    ghost view = { λ e. record {
      store = e.store;
      policy = e.policy;
      storage = storage (D.told e.disk) (D.clock e.disk) (D.failed e.disk) (A.told e.annals);
      started = D.started e.disk;
    } };

    ghost invariant = { λ e. IsReady (D.failed e.disk) (D.told e.disk) e.store };
}

impl<F: Dir, R: Arm<Dir = F>, D: Disk<Arm = R>, A: Annals> Engine<F, R, D, A> {
    /// The root whose store was opened over this disk. Takes no memory.
    pub fn new(store: CoreStore<F>, disk: D, annals: A, policy: Policy) -> Self
        requires { IsReady (D.failed disk) (D.told disk) store }
        ensures store { result.store ≡ store }
        ensures policy { result.policy ≡ policy }
        ensures storage { result.storage
            ≡ storage (D.told disk) (D.clock disk) (D.failed disk) (A.told annals) }
        ensures started { result.started ≡ D.started disk }
    {
        Engine {
            store,
            disk,
            annals,
            policy,
        }
    }

    /// The disk and the annals, once no turn comes any more.
    pub fn into_outside(self) -> (D, A)
        ensures storage { self.storage
            ≡ storage (D.told result.0) (D.clock result.0) (D.failed result.0) (A.told result.1) }
        ensures started { D.started result.0 ≡ self.started }
        ensures open { IsOpen self }
    {
        let Engine {
            store: _,
            disk,
            annals,
            policy: _,
        } = self;
        (disk, annals)
    }

    /// The length of the history.
    pub fn look(&self) -> u64
        ensures { result ≡ self.now.store.length }
    {
        self.store.length
    }

    /// An equal schema of a table; none where there is no such table.
    ///
    /// `NoMemory` where an allocation failed.
    pub fn schema(&self, alloc: Global, table: &Name) -> Result<Option<Schema>, NoMemory>
        ensures schema { IfOk result
            (λ found. found ≡ schema_kept (table_at self.now.store table.now)) }
        ensures open { IsOpen self.now }
    {
        match self.store.tables.get(table) {
            Some(found) => Ok(Some(found.schema.twin(alloc)?)),
            None => Ok(None),
        }
    }

    /// How many of the disk's calls have failed.
    pub fn faults(&self) -> u64
        ensures { result ≡ self.now.storage.failed }
    {
        self.disk.faults()
    }

    /// Whether there is a table of this name. Takes no memory.
    pub fn has_table(&self, table: &Name) -> bool
        ensures { result ≡ is_some (table_at self.now.store table.now) }
    {
        match self.store.tables.get(table) {
            Some(_) => true,
            None => false,
        }
    }

    /// A table as it is now; none where there is no such table. What is added later is not in it.
    ///
    /// `NoMemory` where the copies found no room.
    pub fn snapshot(
        &mut self,
        alloc: Global,
        table: &Name,
    ) -> Result<Option<Snap<Part<F>>>, NoMemory>
        ensures snap { IfOk result (Snaps self.old.store table.now) }
        ensures stays { self.new ≡ self.old }
        ensures open { IsOpen self.old }
    {
        let Some(found) = self.store.tables.get(table) else {
            return Ok(None);
        };
        let length = self.store.length;
        let snap = self.store.set.pin(alloc, table, &found.schema, length)?;
        Ok(Some(snap))
    }

    /// Lets a snapshot go.
    pub fn give_back(&mut self, snap: Snap<Part<F>>)
        ensures stays { self.new ≡ self.old }
    {
        self.store.set.unpin(snap);
    }

    /// Commits a CREATE whose entry was sealed, and gives the length of the history then: its name is published and
    /// settled, the annals note it, and the store has the table.
    ///
    /// It is refused where there is the table, or as many as may be, or the store was stopped, in this order; else only
    /// where memory ran out, or where the disk's count of faults rose in this call. What was sealed comes back where it
    /// was not given to the disk. After a refusal the store is as it was but for room, and the annals list the same
    /// entries.
    pub fn create(
        &mut self,
        alloc: Global,
        session: u64,
        create: Create,
        sealed: Sealed<R::Stage>,
    ) -> Result<u64, Returned<Sealed<R::Stage>>>
        requires named { IsTrue (is_table create.table) }
        requires schema { IsTableSchema create.schema }

        ensures commits { CommitsCreate session create sealed (root_in self.old)
            (root_in self.new) sealed result }
        ensures length { IfOk result (λ length. length ≡ self.new.store.length) }
        ensures goes_on { GoesOn self.old self.new }
    {
        let store = &mut self.store;
        let disk = &mut self.disk;
        let annals = &mut self.annals;
        match commit_create(alloc, store, disk, annals, session, create, sealed) {
            Ok(()) => {}
            Err(returned) => return Err(returned),
        }
        Ok(self.store.length)
    }

    /// Commits a block of one partition whose part was sealed, and gives the length of the history then: its name is
    /// published and settled, the annals note it, and the store has the part.
    ///
    /// It is refused where the partition has as many parts as may be, or the table has no number left, or the store was
    /// stopped, in this order; else only where memory ran out, or where the disk's count of faults rose in this call.
    /// What was sealed comes back where it was not given to the disk. After a refusal the store is as it was but for
    /// room, and the annals list the same entries.
    pub fn insert(
        &mut self,
        alloc: Global,
        session: u64,
        table: &Name,
        part: SealedPart<R::Stage>,
        block: Block,
    ) -> Result<u64, Returned<SealedPart<R::Stage>>>
        requires there { IsSome (table_at self.old.store table.now) }
        requires rows { (t : Made) → table_at self.old.store table.now ≡ Some t
            → IsInsertInto t.schema
            (insert_into table.now (partition_of_block t.schema block) block) }

        ensures commits { (t : Made) → table_at self.old.store table.now ≡ Some t
            → CommitsPart F.files (adding session table.now t block part.sealed part.loaded)
            (root_in self.old) (root_in self.new) part result }
        ensures length { IfOk result (λ length. length ≡ self.new.store.length) }
        ensures goes_on { GoesOn self.old self.new }
    {
        let store = &mut self.store;
        let disk = &mut self.disk;
        let annals = &mut self.annals;
        match commit_part(alloc, store, disk, annals, session, table, part, block) {
            Ok(()) => {}
            Err(returned) => return Err(returned),
        }
        Ok(self.store.length)
    }

    /// Takes up the merge of the pair that the policy takes in a scope: its parts get marks, and equal copies of them
    /// are handed out. None exactly where the policy may take no pair there.
    ///
    /// `NoMemory` where an allocation failed; the root is as it was.
    pub fn take_merge(&mut self, alloc: Global, scope: Scope) -> Result<Option<Work<F>>, NoMemory>
        ensures takes { TakesPair scope.entry self.old self.new result }
        ensures goes_on { GoesOn self.old self.new }
    {
        let set = &self.store.set;
        let Some(picked) = pick(set, &self.store.mutations, self.policy, scope) else {
            return Ok(None);
        };
        let table = picked.table.twin(alloc)?;
        let Pick { partition, run, .. } = picked;
        let work = take_up(alloc, &mut self.store, table, partition, run)?;
        Ok(Some(work))
    }

    /// Takes up the merge of all parts of a partition, one too: they get marks, and equal copies of them are handed
    /// out. None exactly where there is no part, or a mutation keeps two neighbours from being merged.
    ///
    /// Else `Busy` exactly where a part is being merged; `NoMemory` where an allocation failed. After an error the root
    /// is as it was.
    pub fn take_all(
        &mut self,
        alloc: Global,
        table: &Name,
        partition: Partition,
    ) -> Result<Option<Work<F>>, TakeFault>
        ensures takes { TakesWhole table.now partition self.old self.new result }
        ensures goes_on { GoesOn self.old self.new }
    {
        let set = &self.store.set;
        let run = match pick_all(set, &self.store.mutations, table, partition) {
            Ok(Some(run)) => run,
            Ok(None) => return Ok(None),
            Err(Busy { name }) => return Err(TakeFault::Busy(name)),
        };
        let Ok(table) = table.twin(alloc) else {
            return Err(TakeFault::NoMemory);
        };
        match take_up(alloc, &mut self.store, table, partition, run) {
            Ok(work) => Ok(Some(work)),
            Err(_) => Err(TakeFault::NoMemory),
        }
    }

    /// Lets a work go: no part of its table that has the name of a source bears a mark any more.
    pub fn drop_work(&mut self, work: Work<F>)
        ensures drops { DropsWork work self.old self.new }
        ensures goes_on { GoesOn self.old self.new }
    {
        let Work {
            table,
            schema: _,
            partition: _,
            sources,
        } = work;
        let set = &mut self.store.set;
        set.clear_marks(&table, sources.as_slice());
    }

    /// Takes away each mark that is left, where so many works are out and these are none. Takes no memory.
    pub fn clear(&mut self, out: u64)
        ensures frees { Frees out self.old self.new }
        ensures goes_on { GoesOn self.old self.new }
    {
        if out == 0 {
            self.store.set.clear_all_marks();
        }
    }

    /// Puts the part that was sealed of a work's merge in place of its sources, where these stand there under their
    /// names and with their marks, wherever that is by now: its name is published and settled, and the store has the
    /// part. It is no command: the history stays.
    ///
    /// `Gone` exactly where they do not stand so: it tells the first that does not follow there with its mark. It is
    /// refused where the part's level would be greater than may be, or the store was stopped, in this order; else only
    /// where memory ran out, or where the disk's count of faults rose in this call. What was sealed comes back where it
    /// was not given to the disk. After both no part that has the name of a source bears a mark any more, and the store
    /// is else as it was.
    pub fn put_work(
        &mut self,
        alloc: Global,
        work: Work<F>,
        part: SealedPart<R::Stage>,
    ) -> Result<Put<SealedPart<R::Stage>>, Returned<SealedPart<R::Stage>>>
        requires some { 0 < length work.sources.items }
        ensures puts { PutsWork F.files work part.sealed part.loaded self.old self.new part result }
        ensures goes_on { GoesOn self.old self.new }
    {
        let Work {
            table,
            schema: _,
            partition,
            sources,
        } = work;
        let store = &mut self.store;
        let run = match store.set.find_run(&table, partition, sources.as_slice()) {
            Ok(run) => run,
            Err(name) => {
                store.set.clear_marks(&table, sources.as_slice());
                return Ok(Put::Gone {
                    part: name,
                    back: part,
                });
            }
        };
        match merge_run(alloc, store, &mut self.disk, &table, partition, run, part) {
            Ok(()) => Ok(Put::Done),
            Err(returned) => {
                self.store.set.clear_marks(&table, sources.as_slice());
                Err(returned)
            }
        }
    }
}

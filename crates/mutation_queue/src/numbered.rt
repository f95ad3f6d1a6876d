// The mutations of one table.
ghost use Rattle.std.specs.Prelude.{◌≡◌, ◌<◌, ◌≤◌, ◌++◌, ◌∷◌, ◌↔◌, [], length, IsOk, IsTrue, OnErr, OnOk};
ghost use Rattle.std.specs.List.{All, AllWithin};
ghost use Rattle.part_set.specs.part_name.Pending.{MayMerge, Rise, pending_for};

use mt_base::NoMemory;
use mt_values::Mutation;
use part_set::part_name::{PartName, data_version};
use std::alloc::Global;
use std::marker::Model;

/// The mutations of one table, by rising numbers.
#[derive(Drop)]
pub(crate) struct Numbered {
    mutations: Vec<Mutation>,
}

impl Model for Numbered {
    ghost use Rattle.std.specs.Coded.{codes};
    ghost use Rattle.std.specs.Prelude.{◌-◌, length, vec_capacity};
    ghost use Rattle.mt_values.specs.PolishCode.{condition_code};
    ghost use Rattle.part_set.specs.part_name.Pending.{Rise};
    ghost use Rattle.mutation_queue.specs.Listed.{Listed};

    ghost Value = { Listed };

    ghost coded = { Prim.hlevel (codes, condition_code) };

    ghost view = { λ n. record { list = n.mutations.items; room = vec_capacity n.mutations - length n.mutations.items } };

    ghost invariant = { λ n. Rise n.mutations.items };
}

// How many of the mutations have a number at or below this one.
fn count_upto(mutations: &[Mutation], number: u32) -> usize
    requires { Rise mutations.now }
    ensures within { result ≤ length mutations.now }
    ensures front { AllWithin (λ m. m.number ≤ number) mutations.now 0 result }
    ensures back { AllWithin (λ m. number < m.number) mutations.now result (length mutations.now) }
{
    mutations.partition_point(|mutation| mutation.number <= number)
}

/// The mutations above a part's data version, of some by rising numbers. Takes no memory.
pub fn pending_in<'a>(mutations: &'a [Mutation], name: &PartName) -> &'a [Mutation]
    requires { Rise mutations.now }
    ensures { result.now ≡ pending_for mutations.now name.now }
{
    &mutations[count_upto(mutations, data_version(name))..]
}

impl Numbered {
    /// No mutations. Takes no memory.
    pub(crate) fn new(alloc: Global) -> Self
        ensures { result.list ≡ [] }
    {
        Numbered {
            mutations: Vec::new(alloc),
        }
    }

    /// Those above the part's data version.
    pub(crate) fn pending(&self, name: &PartName) -> &[Mutation]
        ensures pending { result.now ≡ pending_for self.now.list name.now }
        ensures rise { Rise self.now.list }
    {
        pending_in(self.mutations.as_slice(), name)
    }

    /// All of them.
    pub(crate) fn all(&self) -> &[Mutation]
        ensures all { result.now ≡ self.now.list }
        ensures rise { Rise self.now.list }
    {
        self.mutations.as_slice()
    }

    /// Whether none of them lies between the data versions of two parts.
    pub(crate) fn may_merge(&self, a: &PartName, b: &PartName) -> bool
        ensures { IsTrue result ↔ MayMerge self.now.list a.now b.now }
    {
        let mutations = self.mutations.as_slice();
        count_upto(mutations, data_version(a)) == count_upto(mutations, data_version(b))
    }

    /// Makes room for one more.
    ///
    /// `NoMemory` where an allocation failed; the mutations stay.
    pub(crate) fn reserve(&mut self) -> Result<(), NoMemory>
        ensures list { self.new.list ≡ self.old.list }
        ensures room { OnOk result (0 < self.new.room) }
        ensures kept { 0 < self.old.room → 0 < self.new.room }
    {
        self.mutations.reserve(1)?;
        Ok(())
    }

    /// Adds one with a number above all. Takes no memory where there is room.
    ///
    /// `NoMemory` where an allocation failed; the mutations stay.
    pub(crate) fn accept(&mut self, mutation: Mutation) -> Result<(), NoMemory>
        requires { All (λ m. m.number < mutation.number) self.old.list }
        ensures ok { OnOk result (self.new.list ≡ self.old.list ++ mutation ∷ []) }
        ensures err { OnErr result (self.new.list ≡ self.old.list) }
        ensures room { 0 < self.old.room → IsOk result }
    {
        self.mutations.push(mutation)?;
        Ok(())
    }
}

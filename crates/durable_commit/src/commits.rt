// A name published and settled, with the command that is noted of it or without one.
ghost use Rattle.std.specs.Prelude.{◌≡◌, None, Option, Some, IfOk};
ghost use Rattle.std.specs.Option.{ForSome};
ghost use Rattle.mt_values.specs.Annals.{Told};
ghost use Rattle.mt_outside.specs.Disk.{files_at, names_of};
ghost use Rattle.durable_commit.specs.Publications.{Settles, publication, storage};

use mt_outside::{Arm, Disk, DiskError};
use mt_values::{Annals, Entry, Name};
use stage_dir::Sealed;
use std::alloc::Global;

/// Publishes what was sealed and settles its name.
///
/// `Fault` only where the disk's count rose in this call, which it does for no other cause where no call of the stage had failed.
/// After a fault the name is there or not; where memory ran out nothing was changed. What was sealed is gone in each case.
pub fn publish<D: Disk>(
    alloc: Global,
    disk: &mut D,
    sealed: Sealed<<D::Arm as Arm>::Stage>,
    name: &Name,
) -> Result<<D::Arm as Arm>::Dir, DiskError>
    requires { ForSome (D.told disk.old) (λ t. files_at name.now (names_of t) ≡ None) }
    ensures turn { (annals : Option Told) → let was = storage (D.told disk.old) (D.clock disk.old)
        (D.failed disk.old) annals in
        let now = storage (D.told disk.new) (D.clock disk.new) (D.failed disk.new) annals in
        Settles (publication name.now sealed None) was now result }
    ensures dir { IfOk result (λ d. D.Arm.Dir.files d ≡ sealed.files) }
    ensures started { D.started disk.new ≡ D.started disk.old }
{
    let dir = match disk.publish(alloc, sealed.into_stage(), name) {
        Ok(dir) => dir,
        Err(error) => return Err(error),
    };
    match disk.sync_names() {
        Ok(()) => Ok(dir),
        Err(error) => Err(error),
    }
}

/// Publishes what was sealed, settles it and notes the command. The annals have room for it.
///
/// `Fault` only where the disk's count rose in this call, which it does for no other cause where no call of the stage had failed.
/// After an error the annals list the same entries; after a fault the name is there or not.
pub fn commit<D: Disk, A: Annals>(
    alloc: Global,
    disk: &mut D,
    annals: &mut A,
    sealed: Sealed<<D::Arm as Arm>::Stage>,
    name: &Name,
    entry: Entry,
) -> Result<<D::Arm as Arm>::Dir, DiskError>
    requires free { ForSome (D.told disk.old) (λ t. files_at name.now (names_of t) ≡ None) }
    requires room { A.has_room annals.old }
    ensures turn { let was = storage (D.told disk.old) (D.clock disk.old) (D.failed disk.old)
        (A.told annals.old) in
        let now = storage (D.told disk.new) (D.clock disk.new) (D.failed disk.new)
        (A.told annals.new) in
        Settles (publication name.now sealed (Some entry)) was now result }
    ensures dir { IfOk result (λ d. D.Arm.Dir.files d ≡ sealed.files) }
    ensures started { D.started disk.new ≡ D.started disk.old }
{
    annals.begin(entry);
    match publish(alloc, disk, sealed, name) {
        Ok(dir) => {
            annals.note(disk.mark());
            Ok(dir)
        }
        Err(error) => Err(error),
    }
}

// The files of a part, checked.
ghost use Rattle.std.specs.Prelude.{◌≡◌, IfErr, IfOk, IsErrOf, OnOk, Some, None};
ghost use Rattle.mt_outside.specs.Files.{Files};
ghost use Rattle.mt_outside.specs.Leaves.{LeavesArm};
ghost use Rattle.root_store.specs.mt_model.History.{IsTableSchema};
ghost use Rattle.root_store.specs.part_reader.Damage.{Tells};
ghost use Rattle.root_store.specs.part_reader.DamagedFile.{damaged_file};
ghost use Rattle.root_store.specs.part_reader.Sound.{IsLoadedOf};

use mt_outside::Arm;
use mt_values::Schema;
use root_store::part_reader::{Part, PartFault, check_part, open_part};
use std::alloc::Global;

/// The part with this folder, opened, and each of its files checked.
pub fn check_files<R: Arm>(
    alloc: Global,
    dir: R::Dir,
    schema: &Schema,
    arm: &mut R,
) -> Result<Part<R::Dir>, PartFault>
    requires { IsTableSchema schema.now }

    // What is read, and what damage is told.
    ensures dir { IfOk result (λ p. p.dir ≡ dir) }
    ensures loaded { (files : Files) → R.Dir.files dir ≡ Some files
        → IfOk result (λ p. IsLoadedOf schema.now files p.loaded) }
    ensures sound { (files : Files) → R.Dir.files dir ≡ Some files
        → OnOk result (damaged_file schema.now files ≡ None) }
    ensures damaged { (files : Files) → R.Dir.files dir ≡ Some files
        → IfErr result (Tells (λ found. damaged_file schema.now files ≡ found)) }

    // What the arm is then, and its count of faults.
    ensures arm { LeavesArm R.Arm arm.old arm.new (IsErrOf result PartFault.Fault) }
{
    let part = open_part(alloc, dir, schema, arm)?;
    match check_part(alloc, &part, arm) {
        Ok(()) => Ok(part),
        Err(fault) => Err(fault),
    }
}

// The disk that a run begins with, on which the root stands as it was set up, with its files as they are damaged.
use crate::answer::Answer;
use crate::root::{File, Folder};
use crate::setting::{Change, Damage};
use disk_mem::{MemArm, MemDisk, MemStage};
use mt_outside::{Arm, Disk, Stage};
use mt_values::{FileId, Name};

// Turns the lowest bit of the byte at a place.
fn turn(bytes: &mut [u8], place: usize) {
    if let Some(byte) = bytes.get_mut(place) {
        *byte ^= 1;
    }
}

// How a file is damaged.
fn change_of(damages: &[Damage], name: &Name, id: FileId) -> Change {
    for damage in damages {
        if damage.id == id && damage.name == *name {
            return damage.change;
        }
    }
    Change::Kept
}

impl Answer {
    // Adds a file to a stage, and syncs it.
    fn add_file(&mut self, stage: &mut MemStage, id: FileId, bytes: &[u8]) {
        let added = stage.append(id, bytes).is_ok();
        let synced = stage.sync(id).is_ok();
        self.note(added && synced);
    }

    // Adds a file to a stage as it is damaged, if it is there then.
    fn add_damaged(&mut self, stage: &mut MemStage, file: &File, change: Change) {
        let mut bytes = self.copied(&file.bytes);
        match change {
            Change::Missing => return,
            Change::Kept => {}
            Change::Cut(length) => bytes.truncate(length),
            Change::Turned(place) => turn(&mut bytes, place),
            Change::Longer => self.push(&mut bytes, 0),
        }
        self.add_file(stage, file.id, &bytes);
    }

    // Publishes a stage of an arm under a name that is not there.
    fn publish(&mut self, disk: &mut MemDisk, arm: &mut MemArm, stage: MemStage, name: &Name) {
        if disk.holds(name) {
            arm.abandon(stage);
            self.fail("a name stands twice");
        } else {
            let published = disk.publish(self.alloc, stage, name).is_ok();
            self.note(published);
        }
    }

    // Publishes a folder by a stage.
    fn publish_folder(
        &mut self,
        disk: &mut MemDisk,
        arm: &mut MemArm,
        stage: MemStage,
        folder: &Folder,
        damages: &[Damage],
    ) {
        let mut stage = stage;
        for file in &folder.files {
            let change = change_of(damages, &folder.name, file.id);
            self.add_damaged(&mut stage, file, change);
        }
        self.publish(disk, arm, stage, &folder.name);
    }

    // Publishes folders by an arm, and settles them.
    fn publish_all(
        &mut self,
        disk: &mut MemDisk,
        arm: &mut MemArm,
        root: &[Folder],
        damages: &[Damage],
    ) {
        for folder in root {
            match arm.stage(self.alloc) {
                Ok(stage) => self.publish_folder(disk, arm, stage, folder, damages),
                Err(_) => self.note(false),
            }
        }
        let settled = disk.sync_names().is_ok();
        self.note(settled);
    }

    // Publishes folders with their files as they are damaged, and settles them.
    fn fill(&mut self, disk: &mut MemDisk, root: &[Folder], damages: &[Damage]) {
        match disk.arm(self.alloc) {
            Ok(arm) => {
                let mut arm = arm;
                self.publish_all(disk, &mut arm, root, damages);
                disk.take_back(arm);
            }
            Err(_) => self.note(false),
        }
    }

    /// A disk of which no call was made, with these folders, all settled, and their files as they are damaged.
    pub fn disk_of(&mut self, root: &[Folder], damages: &[Damage]) -> Option<MemDisk> {
        let mut disk = MemDisk::new(self.alloc).ok()?;
        self.fill(&mut disk, root, damages);
        disk.image(0).ok()
    }
}

// The root that a run begins with, as lines set it up: as earlier runs may have left it, built by the formats of its files.
use crate::answer::Answer;
use crate::text::first_word;
use mt_base::Seq;
use mt_values::{FileId, Name};
use row_merge::digest_file::mark_of;

/// What the first bytes of a manifest are: its kind and the version of the format.
const FIRST: &[u8] = b"MTP1\x01\x00";

/// A file of a folder.
#[derive(Drop)]
pub struct File {
    pub id: FileId,
    pub bytes: Vec<u8>,
}

/// A name of the root, and the files of its folder.
#[derive(Drop)]
pub struct Folder {
    pub name: Name,
    pub files: Vec<File>,
}

/// A root with a name, with which many cases begin.
#[derive(Drop)]
pub struct Shared {
    name: String,
    folders: Vec<Folder>,
}

// The folders of the root of this name.
fn shared_of<'a>(shared: &'a [Shared], name: &str) -> Option<&'a [Folder]> {
    for root in shared {
        if root.name.as_str() == name {
            return Some(root.folders.as_slice());
        }
    }
    None
}

// The file of this name in a folder.
fn file_of(word: &str) -> Option<FileId> {
    match word {
        "entry.bin" => Some(FileId::Entry),
        "manifest.bin" => Some(FileId::Manifest),
        "marks.bin" => Some(FileId::Marks),
        "primary.bin" => Some(FileId::Primary),
        "s0.bin" => Some(FileId::Skip(0)),
        "c0.bin" => Some(FileId::Column(0)),
        "c1.bin" => Some(FileId::Column(1)),
        "c2.bin" => Some(FileId::Column(2)),
        _ => None,
    }
}

impl Answer {
    /// The file of this name in a folder.
    pub fn file_of(&mut self, word: &str) -> FileId {
        match file_of(word) {
            Some(id) => id,
            None => {
                self.fail("no such file");
                FileId::Entry
            }
        }
    }

    // A folder with the same name and files.
    fn copied_folder(&mut self, folder: &Folder) -> Folder {
        let mut files = Vec::new(self.alloc);
        for file in &folder.files {
            let bytes = self.copied(&file.bytes);
            self.push(&mut files, File { id: file.id, bytes });
        }
        let name = Seq::of(self.copied(folder.name.as_slice()));
        Folder { name, files }
    }

    /// Adds the folders of the root of this name.
    pub fn copy_shared(&mut self, shared: &[Shared], name: &str, root: &mut Vec<Folder>) {
        match shared_of(shared, name) {
            Some(folders) => {
                for folder in folders {
                    let copy = self.copied_folder(folder);
                    self.push(root, copy);
                }
            }
            None => self.fail("no root of this name"),
        }
    }

    /// Gives folders a name, as a root.
    pub fn share(&mut self, shared: &mut Vec<Shared>, name: &str, folders: Vec<Folder>) {
        if name.is_empty() || shared_of(shared, name).is_some() {
            self.fail("a root has no name, or that of another");
        }
        let name = self.owned(name);
        self.push(shared, Shared { name, folders });
    }

    // Adds the file of these bytes and of their digest, which stands at its end.
    fn seal(&mut self, files: &mut Vec<File>, id: FileId, bytes: Vec<u8>) {
        let mut bytes = bytes;
        let digest = mark_of(&bytes).digest;
        self.extend(&mut bytes, &digest);
        self.push(files, File { id, bytes });
    }

    // Adds a folder.
    fn add_folder(&mut self, root: &mut Vec<Folder>, name: &str, files: Vec<File>) {
        let name = Seq::of(self.bytes_of(name));
        self.push(root, Folder { name, files });
    }

    /// A folder without files.
    pub fn folder(&mut self, root: &mut Vec<Folder>, name: &str) {
        let files = Vec::new(self.alloc);
        self.add_folder(root, name, files);
    }

    /// A folder with the entry of a text.
    pub fn entry(&mut self, root: &mut Vec<Folder>, rest: &str) {
        let (name, text) = first_word(rest);
        let text = self.bytes_of(text);
        let length = u32::try_from(text.len()).unwrap_or(u32::MAX);
        let mut bytes = Vec::new(self.alloc);
        self.extend(&mut bytes, b"MTS1");
        self.extend(&mut bytes, &length.to_le_bytes());
        self.extend(&mut bytes, &text);
        let mut files = Vec::new(self.alloc);
        self.seal(&mut files, FileId::Entry, bytes);
        self.add_folder(root, name, files);
    }

    // Adds the files of columns, in order.
    fn add_columns(&mut self, files: &mut Vec<File>, columns: &str) {
        let mut number = 0u32;
        for column in columns.split(' ') {
            self.push_file(files, FileId::Column(number), column);
            number = number.saturating_add(1);
        }
    }

    // Adds the file of these bytes.
    fn push_file(&mut self, files: &mut Vec<File>, id: FileId, bytes: &str) {
        let bytes = self.bytes_of(bytes);
        self.push(files, File { id, bytes });
    }

    // Adds the file of the places of granules: numbers with commas between them, each in 8 bytes, the lowest first.
    fn add_places(&mut self, files: &mut Vec<File>, places: &str) {
        let mut bytes = Vec::new(self.alloc);
        for place in places.split(',') {
            let place = self.number_of(place);
            self.extend(&mut bytes, &place.to_le_bytes());
        }
        let id = FileId::Marks;
        self.push(files, File { id, bytes });
    }

    // Adds the size and the digest of a file, as a manifest has them.
    fn add_mark(&mut self, bytes: &mut Vec<u8>, file: &[u8]) {
        let mark = mark_of(file);
        self.extend(bytes, &mark.size.to_le_bytes());
        self.extend(bytes, &mark.digest);
    }

    // The manifest of this many rows in these files, without the digest at its end.
    fn manifest(&mut self, rows: u64, files: &[File]) -> Vec<u8> {
        let count = u32::try_from(files.len()).unwrap_or(u32::MAX);
        let mut bytes = Vec::new(self.alloc);
        self.extend(&mut bytes, FIRST);
        self.extend(&mut bytes, &rows.to_le_bytes());
        self.extend(&mut bytes, &count.to_le_bytes());
        for file in files {
            self.add_mark(&mut bytes, &file.bytes);
        }
        bytes
    }

    /// A folder with the places and the keys of granules, files of columns, and the manifest of this many rows in them.
    pub fn part(&mut self, root: &mut Vec<Folder>, rest: &str) {
        let (name, rest) = first_word(rest);
        let (rows, rest) = first_word(rest);
        let (places, rest) = first_word(rest);
        let (keys, columns) = first_word(rest);
        let rows = self.number_of(rows);
        let mut files = Vec::new(self.alloc);
        self.add_places(&mut files, places);
        self.push_file(&mut files, FileId::Primary, keys);
        if !columns.is_empty() {
            self.add_columns(&mut files, columns);
        }
        let manifest = self.manifest(rows, &files);
        self.seal(&mut files, FileId::Manifest, manifest);
        self.add_folder(root, name, files);
    }

    // Puts a file into a folder, in place of one of its name.
    fn put_file(&mut self, files: &mut Vec<File>, id: FileId, bytes: Vec<u8>) {
        for file in files.iter_mut() {
            if file.id == id {
                file.bytes = bytes;
                return;
            }
        }
        self.push(files, File { id, bytes });
    }

    /// A file with these bytes in the last folder, in place of one of its name.
    pub fn file(&mut self, root: &mut Vec<Folder>, rest: &str) {
        let (file, bytes) = first_word(rest);
        let id = self.file_of(file);
        let bytes = self.bytes_of(bytes);
        match root.last_mut() {
            Some(folder) => self.put_file(&mut folder.files, id, bytes),
            None => self.fail("no folder before it"),
        }
    }
}

use deny_base_lists::{List, Text};

/// The formats of native code that the first bytes of a file show.
#[derive(Clone, Copy)]
pub enum NativeKind {
    Elf,
    Pe,
    Mach,
    Archive,
}

/// How a file is executed.
#[derive(Drop)]
pub enum ExecutableKind {
    /// It is native code.
    Native(NativeKind),
    /// It is a script, of the interpreter with this name.
    Interpreted(Text),
}

/// Why something was not read.
#[derive(Clone, Copy)]
pub enum Failure {
    /// A read of the file failed.
    Unreadable,
    /// The file has 2^40 bytes or more.
    Long,
    /// The list of the folder failed.
    Unlisted,
    /// The package has more than 2^24 entries, with those of the folder.
    Crowded,
}

/// What was found of a file or a folder.
#[derive(Drop)]
pub enum Found {
    /// Nothing was asked of it.
    Unasked,
    /// The SHA-256 of the file.
    Sum([u8; 32]),
    /// How the file is executed, by its first bytes; none for no executable.
    Kind(Option<ExecutableKind>),
    /// It was not read.
    Failed(Failure),
}

/// A file or a folder that was scanned.
#[derive(Drop)]
pub struct Seen {
    /// Its path as it is shown: below the home of cargo, else below the folder of its crate, else as it is.
    pub shown: Text,
    pub found: Found,
}

/// A file of a package.
#[derive(Drop)]
pub struct PackageFile {
    /// Its path from the folder of the package.
    pub path: Text,
    /// The texts of the globs that decide of it: of those of its crate's bypass that match it, in their order, else of
    /// those of scripts. None where something else decides.
    pub globs: List<Text>,
    pub seen: Seen,
}

/// What was scanned of the package of a crate.
#[derive(Drop)]
pub struct Package {
    /// The build script, where its checksum was asked for.
    pub script: Option<Seen>,
    /// The folders that have no list, in the order of their paths.
    pub unlisted: List<Seen>,
    /// The files, in the order of their components; none where the package was not walked.
    pub files: List<PackageFile>,
}

// Texts of files, and their versions.

/// The version of a file. The second has some forms and laws more, the third and the fourth
/// some laws more.
#[derive(Clone, Copy)]
pub(crate) enum Version {
    One,
    Two,
    Three,
    Four,
}

/// The text of a file of that version.
#[derive(Clone, Copy)]
pub(crate) struct Text<'t> {
    /// Its bytes.
    pub(crate) bytes: &'t [u8],
    /// The version that it begins with.
    pub(crate) version: Version,
}

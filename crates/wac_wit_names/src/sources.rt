//! The texts of packages.

/// A file of a package.
pub struct SourceFile {
    /// The name that refusals give it.
    pub name: String,
    /// The text.
    pub text: String,
    /// Which files belong to one package: those with one number.
    pub group: usize,
}

impl Drop for SourceFile {
    fn drop(self) {
        let SourceFile {
            name: _,
            text: _,
            group: _,
        } = self;
    }
}

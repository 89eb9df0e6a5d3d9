//! Normal absolute paths.
use crate::components::{is_plain_name, split_component};
use std::alloc::{AllocError, Global};
use std::marker::Model;

/// A normal absolute path, as the list of its components from the root: none is empty, `.` or `..`, and none has a slash.
///
/// Contracts see the list of the components' bytes. The root has none. (XBD 3.2, 3.271)
#[derive(Debug, Drop)]
pub struct Path {
    pub parts: Vec<Vec<u8>>,
}

impl Model for Path {
    ghost use Rattle.std.specs.Prelude.{ℕ, List};

    ghost Value = { List (List ℕ) };

    ghost use Rattle.std.specs.Prelude.{IsTrue};
    ghost use Rattle.std.specs.List.{list_all};
    ghost use Rattle.ps_lines.specs.Texts.{texts_of};
    ghost use Rattle.ps_world.specs.Paths.{is_name};

    ghost view = { λ path. texts_of path.parts.items };

    ghost invariant = { λ path. IsTrue (list_all is_name (texts_of path.parts.items)) };
}

impl PartialEq for Path {
    ghost use Rattle.std.specs.Prelude.{◌≡◌, nat_eq};
    ghost use Rattle.std.proofs.Common.{rules};
    ghost use Rattle.std.specs.Cmp.Lexicographic.{pointwise};
    ghost use Rattle.std.specs.Cmp.Rules.{comparing};

    ghost eq = { pointwise (pointwise nat_eq) };

    ghost laws = { Prim.search (comparing, rules) };

    fn eq(&self, other: &Path) -> bool {
        self.parts.as_slice() == other.parts.as_slice()
    }
}

impl Path {
    ghost use Rattle.std.specs.Prelude.{◌≡◌, ◌-◌, [], ◌∷◌, ◌++◌, length, take, IsTrue, IfOk, OnOk, OnErr, codes};
    ghost use Rattle.std.specs.List.{list_all};
    ghost use Rattle.ps_world.specs.Paths.{is_name, parent_of, components, path_from, path_of, spelled};
    ghost use Rattle.ps_world.specs.Places.{is_null_path};

    /// The root.
    pub fn root(alloc: Global) -> Path
        ensures { result ≡ [] }
    {
        Path {
            parts: Vec::new(alloc),
        }
    }

    /// Reads the text of a normal absolute path: `/`, or a slash before each of its components and none behind.
    ///
    /// Any other text gives None.
    pub fn read(alloc: Global, text: &[u8]) -> Result<Option<Path>, AllocError>
        ensures { IfOk result (λ path. path ≡ path_of text.now) }
    {
        match text {
            [b'/'] => Ok(Some(Path::root(alloc))),
            [b'/', names @ ..] => Path::read_names(alloc, names),
            _ => Ok(None),
        }
    }

    /// Reads the components of a path, below the root.
    fn read_names(alloc: Global, names: &[u8]) -> Result<Option<Path>, AllocError>
        ensures { IfOk result (λ path. path ≡ path_from (components names.now)) }
    {
        let mut path = Path::root(alloc);
        let mut left = names;
        while let Some((name, rest)) = split_component(left) {
            if !is_plain_name(name) {
                return Ok(None);
            }
            path.push(alloc, name)?;
            left = rest;
        }
        if !is_plain_name(left) {
            return Ok(None);
        }
        path.push(alloc, left)?;
        Ok(Some(path))
    }

    /// The path's text: a slash before each component, and a slash alone for the root.
    pub fn spell(&self, alloc: Global) -> Result<Vec<u8>, AllocError>
        ensures { IfOk result (λ text. text.items ≡ spelled self.now) }
    {
        if self.parts.is_empty() {
            return Vec::from_slice(alloc, b"/");
        }
        let mut text = Vec::new(alloc);
        for part in &self.parts {
            text.push(b'/')?;
            text.extend_from_slice(part.as_slice())?;
        }
        Ok(text)
    }

    /// Whether this is the path of the null device, `/dev/null`.
    #[tactic(auto, unfolding(crate::specs::Places::is_null_path))]
    pub fn is_null_device(&self) -> bool
        ensures { result ≡ is_null_path self.now }
    {
        match self.parts.as_slice() {
            [folder, name] => folder.as_slice() == b"dev".as_slice()
                && name.as_slice() == b"null".as_slice(),
            _ => false,
        }
    }

    /// A copy of this path.
    pub fn copy(&self) -> Result<Path, AllocError>
        ensures { IfOk result (λ path. path ≡ self.now) }
    {
        let parts = self.parts.clone()?;
        Ok(Path { parts })
    }

    /// Goes down to a name in this directory. An error leaves the path as it was.
    pub fn push(&mut self, alloc: Global, name: &[u8]) -> Result<(), AllocError>
        requires name { IsTrue (is_name name.now) }
        ensures ok { OnOk result (self.new ≡ self.old ++ name.now ∷ []) }
        ensures err { OnErr result (self.new ≡ self.old) }
    {
        let part = Vec::from_slice(alloc, name)?;
        self.parts.push(part)?;
        Ok(())
    }

    /// Goes up to the parent directory; the root stays.
    pub fn pop(&mut self)
        ensures { self.new ≡ parent_of self.old }
    {
        self.parts.pop();
    }
}

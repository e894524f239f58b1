ghost use Rattle.std.specs.Prelude.{◌≡◌, ◌<◌, ◌==◌, nat_eq, length, true, false, IsTrue, IfOk, OnOk};
ghost use Rattle.std.specs.List.{list_any, position_or_len};
ghost use Rattle.hb_text.specs.Grammar.{is_lower_or_digit};
ghost use Rattle.hb_text.specs.Names.{IsName, IsProjectName, project_of, repository_of};
ghost use Rattle.hb_text.specs.NameScan.{next_place, place_after, is_within_word};
ghost use Rattle.hb_text.specs.declared.names.Place.TheVariants.{Before};

use crate::texts::Text;
use hb_base::{Duplicate, Memory};
use std::alloc::Global;
use std::error::Error;
use std::fmt;
use std::marker::Model;

/// The most bytes that the name of a repository or of a project has.
pub const LONGEST_NAME: usize = 255;

/// Why a name or a tag isn't read.
#[derive(Clone, Copy, Debug, PartialEq, Eq, Hash)]
pub enum NameFault {
    /// The text is outside the grammar.
    Invalid,
    /// Memory was wanting.
    Memory,
}

impl fmt::Display for NameFault {
    fn fmt<W: fmt::Write>(&self, f: &mut fmt::Formatter<W>) -> fmt::Result {
        match self {
            NameFault::Invalid => write!(f, "not a name"),
            NameFault::Memory => write!(f, "out of memory"),
        }
    }
}

impl Error for NameFault {}

/// The name of a repository: its project, a slash, and the repository within the project. Contracts
/// see its bytes.
#[derive(Debug, PartialEq, Eq, PartialOrd, Ord, Drop)]
pub struct Name {
    text: Text,
}

impl Model for Name {
    ghost use Rattle.std.specs.Prelude.{List, ℕ};
    ghost use Rattle.hb_text.specs.Names.{IsName};

    ghost Value = { List ℕ };

    ghost view = { λ name. name.text };

    ghost invariant = { λ name. IsName name.text };

    ghost inverse = { λ bytes. record { text = bytes } };
}

impl Duplicate for Name {
    fn copy(&self, alloc: Global) -> Result<Name, Memory> {
        Ok(Name {
            text: self.text.copy(alloc)?,
        })
    }
}

/// The name of a project: one component of a repository's name. Contracts see its bytes.
#[derive(Debug, PartialEq, Eq, PartialOrd, Ord, Drop)]
pub struct ProjectName {
    text: Text,
}

impl Model for ProjectName {
    ghost use Rattle.std.specs.Prelude.{List, ℕ};
    ghost use Rattle.hb_text.specs.Names.{IsProjectName};

    ghost Value = { List ℕ };

    ghost view = { λ name. name.text };

    ghost invariant = { λ name. IsProjectName name.text };

    ghost inverse = { λ bytes. record { text = bytes } };
}

impl Duplicate for ProjectName {
    fn copy(&self, alloc: Global) -> Result<ProjectName, Memory> {
        Ok(ProjectName {
            text: self.text.copy(alloc)?,
        })
    }
}

// Where in a name its bytes so far end.
#[derive(Clone, Copy, PartialEq, Eq)]
enum Place {
    // before a word: at the start, or behind a whole separator that a word has to follow
    Before,
    Within,
    // behind one underscore, which another may follow
    Underscore,
    Dashes,
    // outside the grammar, whatever follows
    Outside,
}

fn is_word_byte(byte: u8) -> bool
    ensures { result ≡ is_lower_or_digit byte }
{
    (b'a' <= byte && byte <= b'z') || (b'0' <= byte && byte <= b'9')
}

fn after_byte(slash: bool, place: Place, byte: u8) -> Place
    ensures { result ≡ next_place slash place byte }
{
    match place {
        Place::Outside => Place::Outside,
        Place::Before => if is_word_byte(byte) {
            Place::Within
        } else {
            Place::Outside
        },
        Place::Within => {
            if is_word_byte(byte) {
                Place::Within
            } else if byte == b'.' {
                Place::Before
            } else if byte == b'_' {
                Place::Underscore
            } else if byte == b'-' {
                Place::Dashes
            } else if slash && byte == b'/' {
                Place::Before
            } else {
                Place::Outside
            }
        }
        Place::Underscore => {
            if is_word_byte(byte) {
                Place::Within
            } else if byte == b'_' {
                Place::Before
            } else {
                Place::Outside
            }
        }
        Place::Dashes => {
            if is_word_byte(byte) {
                Place::Within
            } else if byte == b'-' {
                Place::Dashes
            } else {
                Place::Outside
            }
        }
    }
}

fn ends_in_word(slash: bool, text: &[u8]) -> bool
    ensures { result ≡ is_within_word (place_after slash Before text.now) }
{
    let mut place = Place::Before;
    for byte in text {
        place = after_byte(slash, place, *byte);
    }
    matches!(place, Place::Within)
}

fn has_slash(text: &[u8]) -> bool
    ensures { result ≡ list_any (nat_eq 47) text.now }
{
    text.iter().any(|byte| b'/' == *byte)
}

// The place of the first slash, or the text's length where there is none.
fn first_slash(text: &[u8]) -> usize
    ensures value { result ≡ position_or_len (λ b. b == 47) text.now }
    ensures within { IsTrue (list_any (nat_eq 47) text.now) → result < length text.now }
{
    for (place, byte) in text.iter().enumerate() {
        if *byte == b'/' {
            return place;
        }
    }
    text.len()
}

impl ProjectName {
    /// Reads one component of a repository's name, of at most [`LONGEST_NAME`] bytes. `Invalid` for any
    /// other text.
    pub fn read(alloc: Global, text: &[u8]) -> Result<ProjectName, NameFault>
        ensures ok { IfOk result (λ name. name ≡ text.now) }
        ensures valid { OnOk result (IsProjectName text.now) }
        ensures invalid { result ≡ Err NameFault.Invalid → ¬ IsProjectName text.now }
    {
        if text.len() > LONGEST_NAME {
            return Err(NameFault::Invalid);
        }
        if !ends_in_word(false, text) {
            return Err(NameFault::Invalid);
        }
        match Text::new(alloc, text) {
            Ok(text) => Ok(ProjectName { text }),
            Err(_) => Err(NameFault::Memory),
        }
    }

    /// Its bytes.
    pub fn bytes(&self) -> &[u8]
        ensures value { result.now ≡ self.now }
        ensures valid { IsProjectName self.now }
    {
        self.text.bytes()
    }
}

impl Name {
    /// Reads a repository's name (OCI Distribution Specification 1.1, "Pulling manifests", the grammar
    /// of `<name>`) of two components or more and at most [`LONGEST_NAME`]
    /// bytes. `Invalid` for any other text.
    pub fn read(alloc: Global, text: &[u8]) -> Result<Name, NameFault>
        ensures ok { IfOk result (λ name. name ≡ text.now) }
        ensures valid { OnOk result (IsName text.now) }
        ensures invalid { result ≡ Err NameFault.Invalid → ¬ IsName text.now }
    {
        if text.len() > LONGEST_NAME {
            return Err(NameFault::Invalid);
        }
        if !ends_in_word(true, text) {
            return Err(NameFault::Invalid);
        }
        if !has_slash(text) {
            return Err(NameFault::Invalid);
        }
        match Text::new(alloc, text) {
            Ok(text) => Ok(Name { text }),
            Err(_) => Err(NameFault::Memory),
        }
    }

    /// Its bytes.
    pub fn bytes(&self) -> &[u8]
        ensures value { result.now ≡ self.now }
        ensures valid { IsName self.now }
    {
        self.text.bytes()
    }

    /// The project: what stands before the first slash.
    pub fn project(&self) -> &[u8]
        ensures { result.now ≡ project_of self.now }
    {
        let text = self.text.bytes();
        &text[..first_slash(text)]
    }

    /// The repository within the project: what stands behind the first slash.
    pub fn repo(&self) -> &[u8]
        ensures { result.now ≡ repository_of self.now }
    {
        let text = self.text.bytes();
        &text[first_slash(text) + 1..]
    }
}

//! How the dimensions of an array are written.
ghost use Rattle.std.specs.Prelude.{◌≡◌, ◌∷◌, [], IfNone, IfSome};
ghost use Rattle.opl_show.specs.Courses.{brackets_of, closing_of, prefixes_left};
ghost use Rattle.opl_show.specs.Texts.{Brackets};

use opl_given::Elements;
use opl_list::Seq;

/// How one dimension is written.
#[derive(Drop)]
pub(crate) enum Layer {
    /// The whole numbers from the first to the second, which are not written.
    Whole(i128, i128),
    /// The texts of the keys, each with `:` behind it.
    Listed(Seq<Seq<u8>>),
}

/// What stands before each element of a dimension that is left.
#[derive(Clone, Copy)]
pub(crate) enum Prefixes<'a> {
    /// Nothing, for each of these.
    Bare(Elements<'a>),
    Keyed(&'a [Seq<u8>]),
}

impl Layer {
    /// What opens the dimension.
    pub(crate) fn opening(&self) -> &[u8]
        ensures { result.now ≡ (brackets_of self.now).opening }
    {
        match self {
            Layer::Whole(..) => b"[",
            Layer::Listed(_) => b"#[",
        }
    }

    /// What stands before each element.
    pub(crate) fn prefixes(&self) -> Prefixes<'_>
        ensures prefixes { prefixes_left result ≡ (brackets_of self.now).prefixes }
        ensures closing { closing_of result ≡ (brackets_of self.now).closing }
    {
        match self {
            Layer::Whole(low, high) => Prefixes::Bare(Elements::Between(*low, *high)),
            Layer::Listed(keys) => Prefixes::Keyed(keys.as_slice()),
        }
    }
}

impl<'a> Prefixes<'a> {
    /// What closes the dimension.
    pub(crate) fn closing(self) -> &'a [u8]
        ensures { result.now ≡ closing_of self.entry }
    {
        match self {
            Prefixes::Bare(_) => b"]",
            Prefixes::Keyed(_) => b"]#",
        }
    }

    /// What stands before the first element, and before the others.
    pub(crate) fn split_first(self) -> Option<(&'a [u8], Prefixes<'a>)>
        ensures none { IfNone result (prefixes_left self.entry ≡ []) }
        ensures some { IfSome result (λ r. prefixes_left self.entry ≡ r.0.now ∷ prefixes_left r.1) }
        ensures closing { IfSome result (λ r. closing_of r.1 ≡ closing_of self.entry) }
    {
        match self {
            Prefixes::Bare(elements) => match elements.split_first() {
                Some((_, others)) => Some((b"", Prefixes::Bare(others))),
                None => None,
            },
            Prefixes::Keyed(keys) => match keys.split_first() {
                Some((first, others)) => Some((first.as_slice(), Prefixes::Keyed(others))),
                None => None,
            },
        }
    }
}

//! The word that a line of a boot file begins with.

ghost use Rattle.std.specs.Prelude.{◌≡◌, length};
ghost use Rattle.gh_bootfile.specs.Grammar.{bounds, keyword_text};
ghost use Rattle.gh_bootfile.specs.Reading.{keyword_of};

/// Which line of a boot file it is.
#[derive(Clone, Copy, Debug, PartialEq, Eq)]
pub(crate) enum Keyword {
    Pages,
    Partition,
    Cspace,
    Addrspace,
    Doorbell,
    RootExtent,
    Extent,
    Msgqueue,
    Map,
    Cap,
    Vm,
    Rm,
    Link,
}

const KEYWORDS: [Keyword; 13] = [
    Keyword::Pages,
    Keyword::Partition,
    Keyword::Cspace,
    Keyword::Addrspace,
    Keyword::Doorbell,
    Keyword::RootExtent,
    Keyword::Extent,
    Keyword::Msgqueue,
    Keyword::Map,
    Keyword::Cap,
    Keyword::Vm,
    Keyword::Rm,
    Keyword::Link,
];

impl Keyword {
    pub(crate) fn text(self) -> &'static str
        ensures { result.now ≡ keyword_text self }
    {
        match self {
            Keyword::Pages => "pages",
            Keyword::Partition => "partition",
            Keyword::Cspace => "cspace",
            Keyword::Addrspace => "addrspace",
            Keyword::Doorbell => "doorbell",
            Keyword::RootExtent => "rootextent",
            Keyword::Extent => "extent",
            Keyword::Msgqueue => "msgqueue",
            Keyword::Map => "map",
            Keyword::Cap => "cap",
            Keyword::Vm => "vm",
            Keyword::Rm => "rm",
            Keyword::Link => "link",
        }
    }

    /// How many numbers stand behind it.
    pub(crate) fn number_count(self) -> usize
        ensures { result ≡ length (bounds self) }
    {
        match self {
            Keyword::Pages
            | Keyword::Partition
            | Keyword::Cspace
            | Keyword::Addrspace
            | Keyword::Doorbell
            | Keyword::RootExtent => 1,
            Keyword::Vm => 2,
            Keyword::Msgqueue | Keyword::Rm => 3,
            Keyword::Link => 4,
            Keyword::Cap => 5,
            Keyword::Map => 6,
            Keyword::Extent => 7,
        }
    }
}

/// The keyword with this text.
pub(crate) fn read_keyword(text: &[u8]) -> Option<Keyword>
    ensures { result ≡ keyword_of text.now }
{
    KEYWORDS
        .iter()
        .copied()
        .find(|keyword| keyword.text().as_bytes() == text)
}

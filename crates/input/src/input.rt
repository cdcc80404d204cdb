// An image file: a header, then words, all big-endian.
ghost use Rattle.std.specs.Prelude.{◌≡◌, ◌++◌, ◌-◌, ◌/◌, min, length, drop};
ghost use Rattle.input.specs.Input.{header_bytes, header_found, header_in, header_of, word_bytes, words_from};

use answer::Refusal;

// The first byte of a file.
const VERSION: u8 = 1;

// The bytes of a word; base and root have as many.
const WORD_BYTES: usize = 8;

// The bytes before the words.
const HEADER_BYTES: usize = 21;

// The most words that a file may have.
pub const MOST_WORDS: usize = 7680;

#[derive(Clone, Copy, Debug, PartialEq, Eq)]
pub struct Header {
    pub words: u64,
    pub base: u64,
    pub root: u64,
}

// What the header says; 13 if the version, the word count or the length of the file is wrong.
#[tactic(auto, using(std::proofs::lemmas::Bool::Decides::nat_tests), unfolding(crate::specs::Input::header_of))]
pub fn read_header(bytes: &[u8]) -> Result<Header, Refusal>
    ensures { header_in result ≡ header_of bytes.now }
{
    split_header(bytes).ok_or(Refusal::WrongFile)
}

// None if any of these is wrong.
#[tactic(auto, using(std::proofs::lemmas::Bool::Decides::nat_tests), unfolding(crate::specs::Input::header_of))]
fn split_header(bytes: &[u8]) -> Option<Header>
    ensures { header_found result ≡ header_of bytes.now }
{
    let (version, rest) = bytes.split_first()?;
    let (words, rest) = rest.split_first_chunk::<4>()?;
    let (base, rest) = rest.split_first_chunk::<WORD_BYTES>()?;
    let (root, _) = rest.split_first_chunk::<WORD_BYTES>()?;
    let words = u32::from_be_bytes(*words) as usize;
    if *version != VERSION
        || MOST_WORDS < words
        || bytes.len() != HEADER_BYTES + WORD_BYTES * words
    {
        return None;
    }
    Some(Header {
        words: words as u64,
        base: u64::from_be_bytes(*base),
        root: u64::from_be_bytes(*root),
    })
}

// Puts the words behind the header into out, as many as there are and have room, and answers how many.
#[tactic(auto, using(crate::proofs::Words::chunk_at, crate::proofs::Words::word_stored), unfolding(crate::specs::Input::words_from))]
pub fn read_words(bytes: &[u8], out: &mut [u64]) -> u64
    ensures value { result ≡ min ((length bytes.now - header_bytes) / word_bytes) (length out.old) }
    ensures out_after { out.new ≡ words_from bytes.now header_bytes result ++ drop result out.old }
{
    let Some((_, rest)) = bytes.split_at_checked(HEADER_BYTES) else {
        return 0;
    };
    let (words, _) = rest.as_chunks::<WORD_BYTES>();
    let count = words.len().min(out.len());
    // By index: over `out.iter_mut().zip(words)` the proof did not close, since its invariant is over the references
    // that are still to come.
    for (i, word) in words[..count].iter().enumerate() {
        out[i] = u64::from_be_bytes(*word);
    }
    count as u64
}

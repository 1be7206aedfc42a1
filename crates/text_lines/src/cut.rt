// Parts of text and of bytes, and comparing them.
ghost use Rattle.std.specs.Prelude.{◌≡◌, ◌==◌, ◌≤◌, [], length, position, MatchOption};
ghost use Rattle.std.specs.Iterator.{at_most};
ghost use Rattle.text_lines.specs.Cuts.{TakesPart, before_first, behind_first, without_space, words_of, ahead_of, behind_words};

// The index of the first b.
fn find(s: &[u8], b: u8) -> Option<usize>
    ensures { result ≡ position (λ x. x == b) s.now }
{
    s.iter().position(|x| *x == b)
}

// All before the first b. A loop over such parts ends because none is longer than what it is of.
pub fn front(s: &[u8], b: u8) -> &[u8]
    ensures { (result.now ≡ before_first b s.now) × (length result.now ≤ length s.now) }
{
    match find(s, b) {
        Some(n) => &s[..n],
        None => s,
    }
}

// All behind the first b; nothing where there is none.
pub fn behind(s: &[u8], b: u8) -> &[u8]
    ensures { result.now ≡ behind_first b s.now }
{
    match find(s, b) {
        Some(n) => &s[n + 1..],
        None => &[],
    }
}

// Without a space in front.
#[tactic(auto, unfolding(crate::specs::Cuts::without_space))]
pub fn trimmed(s: &[u8]) -> &[u8]
    ensures { result.now ≡ without_space s.now }
{
    match s {
        [b' ', more @ ..] => more,
        _ => s,
    }
}

// The parts of a text, each ended by a byte or by the end of the text; an empty text has none.
#[derive(Drop)]
pub struct Parts<'a> {
    rest: &'a [u8],
    end: u8,
}

impl<'a> Iterator for Parts<'a> {
    type Item = &'a [u8];

    ghost remaining = { λ s. at_most (length s.rest.now) };

    ghost next_gives = { λ s r t. MatchOption r (s.rest.now ≡ []) (λ part. TakesPart s.end s.rest.now part.now t.rest.now × (t.end ≡ s.end)) };

    #[tactic(auto, using(crate::proofs::Parts::behind_shorter))]
    fn next(&mut self) -> Option<&'a [u8]> {
        if self.rest.is_empty() {
            return None;
        }
        let part = front(self.rest, self.end);
        self.rest = behind(self.rest, self.end);
        Some(part)
    }
}

impl<'a> Parts<'a> {
    pub fn of(text: &'a [u8], end: u8) -> Parts<'a>
        ensures { (result.rest.now ≡ text.now) × (result.end ≡ end) }
    {
        Parts { rest: text, end }
    }
}

// Which of some words a word is, counted from 0; their count, not None, where it is none of them:
// `ahead_of` says so, and a `match` on the place has an arm for it.
pub fn position(words: &[u8], word: &[u8]) -> usize
    ensures { result ≡ ahead_of word.now (words_of words.now) }
{
    let mut k = 0;
    for one in Parts::of(words, b' ') {
        if one == word {
            return k;
        }
        k += 1;
    }
    k
}

// All behind the first n words, of which a line has two at most.
#[tactic(auto, unfolding(crate::specs::Cuts::behind_words))]
pub fn skip(words: &[u8], n: usize) -> &[u8]
    ensures { result.now ≡ behind_words n words.now }
{
    match n {
        0 => words,
        1 => behind(words, b' '),
        _ => behind(behind(words, b' '), b' '),
    }
}

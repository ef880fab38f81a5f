//! Texts told apart by their length and their outer bytes.

ghost use Rattle.std.specs.Prelude.{◌≡◌, ◌↔◌, ◌<◌, ℕ, List, IsTrue};
ghost use Rattle.json_tree.specs.Buckets.{bucket_of, IsUsed, HasPut};

/// How many buckets there are.
const BUCKETS: usize = 64;

/// Buckets that texts are put in. A text whose bucket is not yet used is none of those that were put, so
/// most texts of a short list need not be compared with those before them. This project's own.
#[derive(Drop)]
pub struct Buckets {
    used: [bool; BUCKETS],
}

/// The bucket of a text, by its length and its first and last byte.
fn bucket_of(text: &str) -> usize
    ensures same { result ≡ bucket_of text.now }
    ensures within { result < 64 }
{
    let bytes = text.as_bytes();
    let len = bytes.len();
    if len == 0 {
        return 0;
    }
    (len % BUCKETS + 3 * bytes[0] as usize + 17 * bytes[len - 1] as usize) % BUCKETS
}

impl Buckets {
    /// Buckets that nothing was put in.
    pub fn new() -> Buckets
        ensures { (t : List ℕ) → IsUsed result t → ⊥ }
    {
        Buckets {
            used: [false; BUCKETS],
        }
    }

    /// Puts a text in its bucket, and tells whether the bucket was used.
    #[inline]
    pub fn put(&mut self, text: &str) -> bool
        ensures used { IsTrue result ↔ IsUsed self.old text.now }
        ensures put { HasPut self.old self.new text.now }
    {
        let bucket = bucket_of(text);
        let is_used = self.used[bucket];
        self.used[bucket] = true;
        is_used
    }
}

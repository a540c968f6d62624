//! Comparison with expected words, in place and without a search byte by byte. Texts of at most
//! four bytes are compared as one number.

ghost use Rattle.std.specs.Prelude.{◌≡◌, ◌≢◌, ◌++◌, ◌∷◌, ◌||◌, IfSome, IfNone, MatchOption};
ghost use Rattle.std.specs.Prelude.{List, ℕ, codes, false};
ghost use Rattle.std.specs.Str.{bytes_eq};
ghost use Rattle.bohm_text.specs.Ahead.{is_ahead};
ghost use Rattle.bohm_text.specs.Cut.{split};

/// The rest of the line after `front`, if the line begins with it.
#[inline(always)]
pub fn behind<'a>(front: &[u8], line: &'a [u8]) -> Option<&'a [u8]>
    ensures some { IfSome result (λ rest. line.now ≡ front.now ++ rest.now) }
    ensures none { IfNone result ((rest : List ℕ) → line.now ≢ front.now ++ rest) }
{
    line.strip_prefix(front)
}

/// The rest of the line after `reads` and a space, if the line begins with them.
#[inline(always)]
pub fn behind_reads<'a>(line: &'a [u8]) -> Option<&'a [u8]>
    ensures { IfSome result (λ rest. split 32 line.now ≡ codes "reads" ∷ split 32 rest.now) }
{
    behind(b"s ", behind(b"read", line)?)
}

/// The rest of the line after `writes` and a space, if the line begins with them.
#[inline(always)]
pub fn behind_writes<'a>(line: &'a [u8]) -> Option<&'a [u8]>
    ensures { IfSome result (λ rest. split 32 line.now ≡ codes "writes" ∷ split 32 rest.now) }
{
    behind(b"es ", behind(b"writ", line)?)
}

/// The rest of the line after `set` and a space, if the line begins with them.
#[inline(always)]
pub fn behind_set<'a>(line: &'a [u8]) -> Option<&'a [u8]>
    ensures { MatchOption result (is_ahead (codes "set") (split 32 line.now) ≡ false)
        (λ rest. split 32 line.now ≡ codes "set" ∷ split 32 rest.now) }
{
    behind(b"set ", line)
}

/// The rest of the line after `need` and a space, if the line begins with them.
#[inline(always)]
pub fn behind_need<'a>(line: &'a [u8]) -> Option<&'a [u8]>
    ensures { MatchOption result (is_ahead (codes "need") (split 32 line.now) ≡ false)
        (λ rest. split 32 line.now ≡ codes "need" ∷ split 32 rest.now) }
{
    behind(b" ", behind(b"need", line)?)
}

/// The rest of the words after an equals sign and a space, if the words begin with them.
#[inline(always)]
pub fn behind_equals<'a>(words: &'a [u8]) -> Option<&'a [u8]>
    ensures { IfSome result (λ rest. split 32 words.now ≡ codes "=" ∷ split 32 rest.now) }
{
    behind(b"= ", words)
}

/// Whether the words begin with `has` and a space.
#[inline(always)]
fn begins_has(words: &[u8]) -> bool
    ensures { result ≡ is_ahead (codes "has") (split 32 words.now) }
{
    behind(b"has ", words).is_some()
}

/// Whether the words begin with `no` and a space.
#[inline(always)]
fn begins_no(words: &[u8]) -> bool
    ensures { result ≡ is_ahead (codes "no") (split 32 words.now) }
{
    behind(b"no ", words).is_some()
}

/// Whether the words begin with `has` or `no`, as a test of a key's presence does, and more words
/// follow.
#[inline(always)]
pub fn begins_test(words: &[u8]) -> bool
    ensures { let all = split 32 words.now in
        result ≡ (is_ahead (codes "has") all || is_ahead (codes "no") all) }
{
    begins_has(words) || begins_no(words)
}

/// Whether the word is `text`.
#[inline(always)]
pub fn is_word(word: &[u8], text: &[u8]) -> bool
    ensures { result ≡ bytes_eq word.now text.now }
{
    match word.strip_prefix(text) {
        Some(rest) => rest.is_empty(),
        None => false,
    }
}

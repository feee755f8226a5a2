ghost use Rattle.std.specs.Prelude.{◌≡◌, map};
ghost use Rattle.sv_app.specs.Words.{is_among, is_reserved};

const SCHEMA_WORDS: [&[u8]; 8] = [
    b"create",
    b"table",
    b"primary",
    b"key",
    b"unique",
    b"check",
    b"foreign",
    b"references",
];

const TYPE_WORDS: [&[u8]; 4] = [b"in", b"int", b"text", b"ints"];

const CONTROL_WORDS: [&[u8]; 9] = [
    b"txn", b"let", b"get", b"if", b"else", b"for", b"each", b"abort", b"reply",
];

const CHANGE_WORDS: [&[u8]; 10] = [
    b"insert", b"fresh", b"update", b"remove", b"set", b"where", b"and", b"or", b"not", b"old",
];

/// Whether the word is one of these.
fn is_one_of(word: &[u8], words: &[&[u8]]) -> bool
    ensures { result ≡ is_among (map (λ other. other.now) words.now) word.now }
{
    match words {
        [] => false,
        [other, others @ ..] => word == *other || is_one_of(word, others),
    }
}

/// Whether these bytes are a word of the language, which can't name anything.
#[tactic(auto, unfolding(crate::specs::Words::is_reserved))]
pub fn is_reserved(word: &[u8]) -> bool
    ensures { result ≡ is_reserved word.now }
{
    is_one_of(word, &SCHEMA_WORDS)
        || is_one_of(word, &TYPE_WORDS)
        || is_one_of(word, &CONTROL_WORDS)
        || is_one_of(word, &CHANGE_WORDS)
}

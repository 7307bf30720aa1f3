// Identifiers of ECMAScript.
ghost use Rattle.std.specs.Prelude.{◌≡◌, slice_get, drop, bytes_eq};
ghost use Rattle.std.specs.List.{list_all, list_any};
ghost use Rattle.wasm_dts.specs.Identifier.{starts_identifier, continues_identifier, is_identifier_name, is_reserved, is_identifier};
ghost use Rattle.std.specs.Str.{chars};

// The reserved words of module code (ECMA-262, "Keywords and Reserved Words"), and the two names that
// can't be bound there.
const RESERVED: [&str; 48] = [
    "arguments",
    "await",
    "break",
    "case",
    "catch",
    "class",
    "const",
    "continue",
    "debugger",
    "default",
    "delete",
    "do",
    "else",
    "enum",
    "eval",
    "export",
    "extends",
    "false",
    "finally",
    "for",
    "function",
    "if",
    "implements",
    "import",
    "in",
    "instanceof",
    "interface",
    "let",
    "new",
    "null",
    "package",
    "private",
    "protected",
    "public",
    "return",
    "static",
    "super",
    "switch",
    "this",
    "throw",
    "true",
    "try",
    "typeof",
    "var",
    "void",
    "while",
    "with",
    "yield",
];

fn starts_identifier(ch: char) -> bool
    ensures { result ≡ starts_identifier ch }
{
    unicode_ident::is_xid_start(ch) || ch == '$' || ch == '_'
}

fn continues_identifier(ch: char) -> bool
    ensures { result ≡ continues_identifier ch }
{
    unicode_ident::is_xid_continue(ch) || ch == '$' || ch == '\u{200C}' || ch == '\u{200D}'
}

// The first character.
fn first_of(text: &str) -> Option<char>
    ensures { result ≡ slice_get (chars text.now) 0 }
{
    text.chars().next()
}

// Whether each character behind the first can go on with an identifier.
fn continues(text: &str) -> bool
    ensures { result ≡ list_all continues_identifier (drop 1 (chars text.now)) }
{
    text.chars().skip(1).all(continues_identifier)
}

#[tactic(auto, using(crate::proofs::Identifiers::name_of_first, crate::proofs::Identifiers::no_name))]
fn is_identifier_name(text: &str) -> bool
    ensures { result ≡ is_identifier_name (chars text.now) }
{
    match first_of(text) {
        Some(first) => starts_identifier(first) && continues(text),
        None => false,
    }
}

// Whether the text is one of the words.
fn is_among(words: &[&str], text: &str) -> bool
    ensures { result ≡ list_any (λ word. bytes_eq word.now text.now) words.now }
{
    words.iter().any(|word| *word == text)
}

fn is_reserved(text: &str) -> bool
    ensures { result ≡ is_reserved text.now }
{
    is_among(&RESERVED, text)
}

/// Whether a text can be declared, and exported under itself: it is an identifier name (ECMA-262, "Names
/// and Keywords"), and none of the reserved words of module code, `arguments` and `eval`.
pub fn is_identifier(text: &str) -> bool
    ensures { result ≡ is_identifier text.now }
{
    is_identifier_name(text) && !is_reserved(text)
}

//! The signs of the language.
ghost use Rattle.opl_token.specs.Lexeme.{sign_text};
ghost use Rattle.std.specs.Prelude.{◌≡◌};

/// A sign of the language. A sign whose text begins with another's stands before that one.
#[derive(Clone, Copy, Debug)]
pub enum Sign {
    /// `<=>`
    Equivalent,
    /// `...`
    Ellipsis,
    /// `..`
    Range,
    /// `:=`
    Assign,
    /// `]#`
    CloseAssociation,
    /// `#[`
    OpenAssociation,
    /// `<=`
    LessOrEqual,
    /// `<>`
    NotEqual,
    /// `>=`
    GreaterOrEqual,
    /// `=>`
    Implies,
    /// `\/`
    Or,
    /// `.`
    Dot,
    /// `,`
    Comma,
    /// `;`
    Semicolon,
    /// `:`
    Colon,
    /// `(`
    OpenParenthesis,
    /// `)`
    CloseParenthesis,
    /// `[`
    OpenBracket,
    /// `]`
    CloseBracket,
    /// `{`
    OpenBrace,
    /// `}`
    CloseBrace,
    /// `<`
    Less,
    /// `>`
    Greater,
    /// `=`
    Equal,
    /// `+`
    Plus,
    /// `-`
    Minus,
    /// `*`
    Times,
    /// `&`
    And,
    /// `|`
    Bar,
}

/// All signs, longer ones first.
pub static SIGNS: [Sign; 29] = [
    Sign::Equivalent,
    Sign::Ellipsis,
    Sign::Range,
    Sign::Assign,
    Sign::CloseAssociation,
    Sign::OpenAssociation,
    Sign::LessOrEqual,
    Sign::NotEqual,
    Sign::GreaterOrEqual,
    Sign::Implies,
    Sign::Or,
    Sign::Dot,
    Sign::Comma,
    Sign::Semicolon,
    Sign::Colon,
    Sign::OpenParenthesis,
    Sign::CloseParenthesis,
    Sign::OpenBracket,
    Sign::CloseBracket,
    Sign::OpenBrace,
    Sign::CloseBrace,
    Sign::Less,
    Sign::Greater,
    Sign::Equal,
    Sign::Plus,
    Sign::Minus,
    Sign::Times,
    Sign::And,
    Sign::Bar,
];

impl Sign {
    /// The bytes of a sign.
    pub fn text(self) -> &'static [u8]
        ensures { result.now ≡ sign_text self }
    {
        match self {
            Sign::Equivalent => b"<=>",
            Sign::Ellipsis => b"...",
            Sign::Range => b"..",
            Sign::Assign => b":=",
            Sign::CloseAssociation => b"]#",
            Sign::OpenAssociation => b"#[",
            Sign::LessOrEqual => b"<=",
            Sign::NotEqual => b"<>",
            Sign::GreaterOrEqual => b">=",
            Sign::Implies => b"=>",
            Sign::Or => b"\\/",
            Sign::Dot => b".",
            Sign::Comma => b",",
            Sign::Semicolon => b";",
            Sign::Colon => b":",
            Sign::OpenParenthesis => b"(",
            Sign::CloseParenthesis => b")",
            Sign::OpenBracket => b"[",
            Sign::CloseBracket => b"]",
            Sign::OpenBrace => b"{",
            Sign::CloseBrace => b"}",
            Sign::Less => b"<",
            Sign::Greater => b">",
            Sign::Equal => b"=",
            Sign::Plus => b"+",
            Sign::Minus => b"-",
            Sign::Times => b"*",
            Sign::And => b"&",
            Sign::Bar => b"|",
        }
    }
}

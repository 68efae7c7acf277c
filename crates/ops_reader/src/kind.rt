//! Why a token is refused.

ghost use Rattle.std.specs.Prelude.{◌≡◌};
ghost use Rattle.ops_tokens.specs.Token.{seen};
ghost use Rattle.ops_reader.specs.LeftOut.{declarations_left_out, functions_left_out, files_left_out, commands_left_out, is_among, is_left_out};
ghost use Rattle.ops_reader.specs.Refusal.{kind_of_fault};
ghost use Rattle.ops_reader.specs.Kind.{kind_of_head, kind_at};

use crate::SyntaxKind;
use crate::slot::Slot;
use ops_tokens::{LexicalFault, Token};

/// Why the token is refused where this may stand.
pub(crate) fn kind_at(slot: Slot, token: Token) -> SyntaxKind
    ensures { result ≡ kind_at slot (seen token.entry) }
{
    match (slot, token) {
        (_, Token::Bad(fault)) => kind_of_fault(fault),
        (Slot::Head, Token::Plain(word, _)) => kind_of_head(word),
        (Slot::Head | Slot::Constant | Slot::BindValue, Token::Slashes) => {
            SyntaxKind::NotInProfile
        }
        (Slot::BindValue, Token::Close) => SyntaxKind::NotInProfile,
        (Slot::Operand, Token::Open) => SyntaxKind::TooDeep,
        (Slot::Number, Token::Integer(_)) => SyntaxKind::BadNumeral,
        _ => SyntaxKind::Unexpected,
    }
}

fn kind_of_fault(fault: LexicalFault) -> SyntaxKind
    ensures { result ≡ kind_of_fault fault }
{
    match fault {
        LexicalFault::Unclosed => SyntaxKind::Unclosed,
        LexicalFault::BadNumeral => SyntaxKind::BadNumeral,
        LexicalFault::LongSymbol => SyntaxKind::LongSymbol,
        LexicalFault::NotInProfile => SyntaxKind::NotInProfile,
    }
}

fn kind_of_head(word: &[u8]) -> SyntaxKind
    ensures { result ≡ kind_of_head word.now }
{
    if is_left_out(word) {
        SyntaxKind::NotInProfile
    } else {
        SyntaxKind::Unexpected
    }
}

/// Whether the word is one of OPS5 that this language leaves out.
fn is_left_out(word: &[u8]) -> bool
    ensures { result ≡ is_left_out word.now }
{
    is_declaration_left_out(word)
        || is_function_left_out(word)
        || is_file_action_left_out(word)
        || is_command_left_out(word)
}

// A `match` of words so long isn't proved today, and a longer chain takes long to prove.
fn is_declaration_left_out(word: &[u8]) -> bool
    ensures { result ≡ is_among word.now declarations_left_out }
{
    word == b"literal".as_slice()
        || word == b"vector-attribute".as_slice()
        || word == b"external".as_slice()
        || word == b"pbreak".as_slice()
}

fn is_function_left_out(word: &[u8]) -> bool
    ensures { result ≡ is_among word.now functions_left_out }
{
    word == b"substr".as_slice()
        || word == b"litval".as_slice()
        || word == b"genatom".as_slice()
        || word == b"cbind".as_slice()
        || word == b"build".as_slice()
        || word == b"call".as_slice()
        || word == b"default".as_slice()
}

fn is_file_action_left_out(word: &[u8]) -> bool
    ensures { result ≡ is_among word.now files_left_out }
{
    word == b"accept".as_slice()
        || word == b"acceptline".as_slice()
        || word == b"openfile".as_slice()
        || word == b"closefile".as_slice()
}

fn is_command_left_out(word: &[u8]) -> bool
    ensures { result ≡ is_among word.now commands_left_out }
{
    word == b"run".as_slice()
        || word == b"excise".as_slice()
        || word == b"wm".as_slice()
        || word == b"pm".as_slice()
        || word == b"cs".as_slice()
        || word == b"ppwm".as_slice()
        || word == b"matches".as_slice()
        || word == b"back".as_slice()
}

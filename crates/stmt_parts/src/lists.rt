// Lists whose members stand between commas.
ghost use Rattle.std.specs.Prelude.{◌≡◌, ◌^◌, ◌<◌, ◌++◌, ◌∷◌, [], List, Option, IfOk, length, map};
ghost use Rattle.std.specs.Option.{option_map};
ghost use Rattle.stmt_reader.specs.declared.token.Token.{Token as TokenData};
ghost use Rattle.stmt_reader.specs.Cutting.{is_comma};
ghost use Rattle.stmt_reader.specs.Splitting.{list_of};
ghost use Rattle.stmt_parts.specs.Lists.{list_if, onto};

use ground::List;
use std::alloc::{AllocError, Global};
use stmt_reader::{Stop, Token, cut_at};

/// What stands between the commas of a list.
pub trait Member {
    /// What a member is in memory.
    type Read: Drop;

    /// A member as plain data.
    ghost Plain: { Type 0 };

    ghost plain: { Self.Read → Plain };

    /// The member that tokens give, if they give one.
    ghost member_of: { List TokenData → Option Plain };

    fn read(alloc: Global, tokens: &[Token]) -> Result<Option<Self::Read>, AllocError>
        requires { length tokens.now < 2 ^ 63 }
        ensures { IfOk result (λ m. option_map plain m ≡ member_of tokens.now) };
}

/// The members that tokens give, if they are a list of such members.
pub fn read_list<M: Member>(
    alloc: Global,
    tokens: &[Token],
) -> Result<Option<List<M::Read>>, AllocError>
    requires { length tokens.now < 2 ^ 63 }
    ensures { IfOk result (λ r. list_if M.plain r ≡ list_of M.member_of is_comma tokens.now) }
{
    add_members::<M>(alloc, Vec::new(alloc), tokens)
}

/// The members before, and those that tokens give.
fn add_members<M: Member>(
    alloc: Global,
    before: List<M::Read>,
    tokens: &[Token],
) -> Result<Option<List<M::Read>>, AllocError>
    requires { length tokens.now < 2 ^ 63 }
    ensures { IfOk result (λ r. list_if M.plain r ≡ onto (map M.plain before.items) (list_of M.member_of is_comma tokens.now)) }
{
    match cut_at(tokens, 0, Stop::Comma) {
        None => match M::read(alloc, tokens)? {
            None => Ok(None),
            Some(member) => Ok(Some(with_member::<M>(before, member)?)),
        },
        Some(at) => match M::read(alloc, &tokens[..at])? {
            None => Ok(None),
            Some(member) => {
                let list = with_member::<M>(before, member)?;
                add_members::<M>(alloc, list, &tokens[at + 1..])
            }
        },
    }
}

fn with_member<M: Member>(
    before: List<M::Read>,
    member: M::Read,
) -> Result<List<M::Read>, AllocError>
    ensures { IfOk result (λ r. map M.plain r.items ≡ map M.plain before.items ++ M.plain member ∷ []) }
{
    let mut list = before;
    list.push(member)?;
    Ok(list)
}

// What `read` and `write` edit, and how wide it is.
ghost use Rattle.std.specs.Prelude.{◌≡◌, ◌&&◌, ◌++◌, nat_le, map, flat_map, sum_by, Some};
ghost use Rattle.std.specs.List.{list_all};
ghost use Rattle.efl_tree.specs.Views.{write_item_of, read_item_of, place_of};
ghost use Rattle.efl_types.specs.Signatures.{Names as NamesSeen};
ghost use Rattle.efl_types.specs.Expressions.{store_wants, place_faults};
ghost use Rattle.efl_types.specs.Statements.{edited as edited_seen, width as width_seen, written_width as written_width_seen, read_width as read_width_seen, is_width as is_width_seen, written_faults, read_faults};
ghost use Rattle.efl_scoped.specs.Numbers.{Table};
ghost use Rattle.efl_expressions.specs.FirstRule.{first_rule};
ghost use Rattle.efl_names.specs.NameViews.{Stands};
ghost use Rattle.efl_statements.specs.Widths.{room_after};

use efl_expressions::lower;
use efl_names::Names;
use efl_places::{check_place, check_value, store_rule};
use efl_tree::{EflEdit, EflPlace, ReadItem, WriteItem};
use efl_types::TypeRule;
use ground::Kind;

/// What an edit takes.
fn edited(edit: EflEdit) -> Kind
    ensures { result ≡ edited_seen edit }
{
    match edit {
        EflEdit::Whole(_) => Kind::Integer,
        EflEdit::Truth(_) => Kind::Logical,
        EflEdit::Letter => Kind::Integer,
    }
}

fn width(edit: EflEdit) -> u64
    ensures { result ≡ width_seen edit }
{
    match edit {
        EflEdit::Whole(width) => width.unsigned_abs(),
        EflEdit::Truth(width) => width.unsigned_abs(),
        EflEdit::Letter => 1,
    }
}

fn written_width(item: &WriteItem) -> u64
    ensures { result ≡ written_width_seen (write_item_of item.now) }
{
    match item {
        WriteItem::Value(_, edit) => width(*edit),
        WriteItem::Skip(count) => count.unsigned_abs(),
        WriteItem::Chars(text) => text.as_bytes().len() as u64,
    }
}

fn read_width(item: &ReadItem) -> u64
    ensures { result ≡ read_width_seen (read_item_of item.now) }
{
    match item {
        ReadItem::Take(_, edit) => width(*edit),
        ReadItem::Skip(count) => count.unsigned_abs(),
    }
}

/// Whether an item may be so wide.
fn is_width(width: u64) -> bool
    ensures { result ≡ is_width_seen width }
{
    1 <= width && width <= 132
}

/// What is left of a record's room after an item of this width, where all so far fit.
fn narrowed(room: Option<u64>, width: u64) -> Option<u64>
    ensures { result ≡ room_after room width }
{
    match room {
        None => None,
        Some(room) => left_of(room, width),
    }
}

/// What is left of so much room.
fn left_of(room: u64, width: u64) -> Option<u64>
    ensures { result ≡ room_after (Some room) width }
{
    if !is_width(width) {
        return None;
    }
    if room < width {
        return None;
    }
    Some(room - width)
}

/// Whether each item of a `write` is as wide as it may be, and all are together.
pub fn written_fit(list: &[WriteItem]) -> bool
    ensures { result ≡ (list_all (λ i. is_width_seen (written_width_seen i)) (map write_item_of list.now) && nat_le (sum_by written_width_seen (map write_item_of list.now)) 132) }
{
    let mut room = Some(132);
    for item in list {
        room = narrowed(room, written_width(item));
    }
    room.is_some()
}

/// Whether each item of a `read` is as wide as it may be, and all are together.
pub fn read_fit(list: &[ReadItem]) -> bool
    ensures { result ≡ (list_all (λ i. is_width_seen (read_width_seen i)) (map read_item_of list.now) && nat_le (sum_by read_width_seen (map read_item_of list.now)) 132) }
{
    let mut room = Some(132);
    for item in list {
        room = narrowed(room, read_width(item));
    }
    room.is_some()
}

/// What an item of a `write` breaks, its width aside.
fn written_rule(item: &WriteItem, names: &Names) -> Option<TypeRule>
    ensures { (f : Table) (n : NamesSeen) → Stands f n names.now → result ≡ first_rule (written_faults n (write_item_of item.now)) }
{
    match item {
        WriteItem::Value(e, edit) => check_value(edited(*edit), e, names),
        WriteItem::Skip(_) => None,
        WriteItem::Chars(_) => None,
    }
}

/// What an item of a `read` breaks, its width aside.
fn taken_rule(item: &ReadItem, names: &Names) -> Option<TypeRule>
    ensures { (f : Table) (n : NamesSeen) → Stands f n names.now → result ≡ first_rule (read_faults n (read_item_of item.now)) }
{
    match item {
        ReadItem::Take(place, edit) => stored_rule(place, edited(*edit), names),
        ReadItem::Skip(_) => None,
    }
}

/// What a place breaks that a value of this kind is read into.
fn stored_rule(place: &EflPlace, kind: Kind, names: &Names) -> Option<TypeRule>
    ensures { (f : Table) (n : NamesSeen) → Stands f n names.now → result ≡ first_rule (store_wants n kind (place_of place.now) ++ place_faults n (place_of place.now)) }
{
    let placed = check_place(place, names);
    lower(store_rule(kind, &placed), placed.rule)
}

/// What the items of a `write` break, their widths aside.
pub fn written_rules(list: &[WriteItem], names: &Names) -> Option<TypeRule>
    ensures { (f : Table) (n : NamesSeen) → Stands f n names.now → result ≡ first_rule (flat_map (written_faults n) (map write_item_of list.now)) }
{
    let mut rule = None;
    for item in list {
        rule = lower(rule, written_rule(item, names));
    }
    rule
}

/// What the items of a `read` break, their widths aside.
pub fn taken_rules(list: &[ReadItem], names: &Names) -> Option<TypeRule>
    ensures { (f : Table) (n : NamesSeen) → Stands f n names.now → result ≡ first_rule (flat_map (read_faults n) (map read_item_of list.now)) }
{
    let mut rule = None;
    for item in list {
        rule = lower(rule, taken_rule(item, names));
    }
    rule
}

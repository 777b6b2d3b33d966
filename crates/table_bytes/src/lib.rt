// Width tables (document 01: books) as bytes. Every definition that the contracts cite is in specs/.
#![tactic(auto)]

ghost use Rattle.std.specs.Prelude.{◌≡◌, ◌+◌, ◌≤◌, true, false, length, drop, IfOk};
ghost use Rattle.std.proofs.Math.Seq.{paste};
ghost use Rattle.refusals.specs.Answers.{passed, ◌then◌};
ghost use Rattle.refusals.specs.Told.{told};
ghost use Rattle.numbers.specs.Lists.{over};
ghost use Rattle.width_table.specs.Table.{max_levels};
ghost use Rattle.table_bytes.specs.Fields.{nodes_tag, products_tag, head_bytes, fields, fields_after, field_of, table_size, value_start, value_length, bytes_of};
ghost use Rattle.table_bytes.specs.Bytes.{headed, field, form_by, levels_in, has_fifth, form, value_in, products_in, table_read, empty_table, table_in, bytes_of_table, writing, bytes_after, form_after, placed};
ghost use Rattle.table_bytes.specs.Names.{has_tag, naming, part_at};
ghost use Rattle.table_bytes.specs.Tags.{number_of, Names};

use refusals::Refusal;
use width_table::WidthTable;

// Bytes of a field before its value: its tag, and its length.
const HEAD_BYTES: usize = 3;

// The tags, from the first to the last.
#[derive(Clone, Copy)]
enum Tag {
    Depth = 1,
    Levels,
    Constants,
    Nodes,
    Products,
}

pub const PRODUCTS_TAG: u8 = Tag::Products as u8;

impl Tag {
    // The byte that stands for it.
    fn number(self) -> u8
        ensures { result ≡ number_of self }
    {
        self as u8
    }
}

// Any other byte names no tag (2).
impl TryFrom<u8> for Tag {
    type Error = Refusal;

    ghost try_from_gives = { Names };

    fn try_from(number: u8) -> Result<Tag, Refusal> {
        match number {
            1 => Ok(Tag::Depth),
            2 => Ok(Tag::Levels),
            3 => Ok(Tag::Constants),
            4 => Ok(Tag::Nodes),
            5 => Ok(Tag::Products),
            _ => Err(Refusal::WrongTag),
        }
    }
}

// Bytes of a table of all levels with tag 5: five fields.
pub const MAX_BYTES: usize = 5 * HEAD_BYTES
    + 1
    + 1
    + WidthTable::CONSTANTS
    + WidthTable::NODE_BYTES
    + WidthTable::PRODUCT_BYTES;

// The head of a field: once its three bytes are there (1), the tag (2), the length (3), and that the value is whole (1).
fn head(bytes: &[u8], tag: Tag, len: usize) -> Result<(), Refusal>
    ensures { told result ≡ headed (number_of tag) len bytes.now }
{
    if bytes.len() < HEAD_BYTES {
        return Err(Refusal::CutShort);
    }
    let found = bytes[0];
    let announced = numbers::two(bytes[1], bytes[2]) as usize;
    let there = bytes.len() - HEAD_BYTES;
    if found != tag.number() {
        return Err(Refusal::WrongTag);
    }
    if announced != len {
        return Err(Refusal::WrongLength);
    }
    if there < announced {
        Err(Refusal::CutShort)
    } else {
        Ok(())
    }
}

// How long a tag's value is in a table of so many levels: the first three are as long in every table.
fn value_length(levels: u8, tag: Tag) -> usize
    ensures { result ≡ value_length levels (number_of tag) }
{
    match tag {
        Tag::Depth | Tag::Levels => 1,
        Tag::Constants => WidthTable::CONSTANTS,
        Tag::Nodes => WidthTable::LEVEL_BYTES * (levels as usize),
        Tag::Products => WidthTable::LEVEL_PRODUCTS * (levels as usize),
    }
}

// Where a tag's value starts in the bytes of a table of so many levels: after the value before it and its own head.
fn value_start(levels: u8, tag: Tag) -> usize
    ensures { result ≡ value_start levels (number_of tag) }
{
    let depth_at = HEAD_BYTES;
    let levels_at = depth_at + 1 + HEAD_BYTES;
    let constants_at = levels_at + 1 + HEAD_BYTES;
    let nodes_at = constants_at + WidthTable::CONSTANTS + HEAD_BYTES;
    match tag {
        Tag::Depth => depth_at,
        Tag::Levels => levels_at,
        Tag::Constants => constants_at,
        Tag::Nodes => nodes_at,
        Tag::Products => nodes_at + value_length(levels, Tag::Nodes) + HEAD_BYTES,
    }
}

// Whether a tag's value is right.
fn value_right(value: &[u8], tag: Tag) -> bool
    ensures { result ≡ (field_of (fields true 0) (number_of tag)).right value.now }
{
    match tag {
        Tag::Depth => width_table::all_between(value, 1, WidthTable::MAX_DEPTH),
        Tag::Levels => width_table::all_between(value, 1, WidthTable::MAX_LEVELS),
        Tag::Constants => width_table::all_between(value, 1, WidthTable::MAX_CONSTANT_BITS),
        Tag::Nodes => width_table::widths_right(value),
        Tag::Products => width_table::all_between(value, 0, WidthTable::MAX_PRODUCT_BITS),
    }
}

// The field of a tag at the front of the bytes, refusals 1 to 4: what follows it is read as input of its own.
fn field(bytes: &[u8], levels: u8, tag: Tag) -> Result<&[u8], Refusal>
    ensures answer { told result then passed ≡ field (field_of (fields true levels) (number_of tag)) bytes.now }
    ensures rest { IfOk result (λ r. r.now ≡ drop (head_bytes + value_length levels (number_of tag)) bytes.now) }
{
    let len = value_length(levels, tag);
    head(bytes, tag, len)?;
    if !value_right(&bytes[HEAD_BYTES..HEAD_BYTES + len], tag) {
        return Err(Refusal::OutsideLimits);
    }
    Ok(&bytes[HEAD_BYTES + len..])
}

// Nothing follows the last field.
fn ended(bytes: &[u8]) -> Result<(), Refusal>
    ensures { told result ≡ form_by (fields_after true 0 products_tag) bytes.now }
{
    if bytes.is_empty() {
        Ok(())
    } else {
        Err(Refusal::TrailingBytes)
    }
}

// What follows the fourth field (document 02, job 7): nothing, or tag 5 and nothing after it; any other byte is 5.
fn after_fourth(bytes: &[u8], levels: u8) -> Result<(), Refusal>
    ensures { told result ≡ form_after levels nodes_tag bytes.now }
{
    if bytes.is_empty() {
        return Ok(());
    }
    if bytes[0] != PRODUCTS_TAG {
        return Err(Refusal::TrailingBytes);
    }
    ended(field(bytes, levels, Tag::Products)?)
}

// The levels that bytes hold: the number of the second field, 0 where there is none.
fn levels_in(bytes: &[u8]) -> u8
    ensures { result ≡ levels_in bytes.now }
{
    bytes.get(value_start(0, Tag::Levels)).copied().unwrap_or(0)
}

// Whether bytes are those of a table: refusals 1 to 5. What follows a field is read as input of its own.
pub fn form_of(bytes: &[u8]) -> Result<(), Refusal>
    ensures { told result ≡ form bytes.now }
{
    let levels = levels_in(bytes);
    let after_depth = field(bytes, levels, Tag::Depth)?;
    let after_levels = field(after_depth, levels, Tag::Levels)?;
    let after_constants = field(after_levels, levels, Tag::Constants)?;
    after_fourth(field(after_constants, levels, Tag::Nodes)?, levels)
}

// How many bytes a table of so many levels has, with tag 5 or without it: they end with the last tag's value.
fn table_size(has_products: bool, levels: u8) -> usize
    ensures { result ≡ table_size has_products levels }
{
    let last = if has_products {
        Tag::Products
    } else {
        Tag::Nodes
    };
    value_start(levels, last) + value_length(levels, last)
}

// Whether bytes of a right form have tag 5: they are more than a table without it has.
fn has_fifth(bytes: &[u8]) -> bool
    requires { form bytes.now ≡ passed }
    ensures { result ≡ has_fifth bytes.now }
{
    table_size(false, levels_in(bytes)) < bytes.len()
}

// Copies `from` into lent bytes from a place on.
fn put(lent: &mut [u8], start: usize, from: &[u8])
    requires { start + length from.now ≤ length lent.old }
    ensures { lent.new ≡ paste lent.old start from.now (length from.now) }
{
    lent[start..start + from.len()].copy_from_slice(from);
}

// The value of a tag that bytes of a right form have.
fn value_in(bytes: &[u8], tag: Tag) -> &[u8]
    requires { (form bytes.now ≡ passed) × (has_tag bytes.now (number_of tag) ≡ true) }
    ensures { (result.now ≡ value_in bytes.now (number_of tag)) × (length result.now ≡ value_length (levels_in bytes.now) (number_of tag)) }
{
    let levels = levels_in(bytes);
    let start = value_start(levels, tag);
    let end = start + value_length(levels, tag);
    &bytes[start..end]
}

// The widths of products that bytes of a right form hold; zeros without tag 5.
fn products_in(bytes: &[u8]) -> [u8; WidthTable::PRODUCT_BYTES]
    requires { form bytes.now ≡ passed }
    ensures { result ≡ products_in (has_fifth bytes.now) bytes.now }
{
    let mut products = [0u8; WidthTable::PRODUCT_BYTES];
    if !has_fifth(bytes) {
        return products;
    }
    put(&mut products, 0, value_in(bytes, Tag::Products));
    products
}

// The table that bytes of a right form hold.
fn table_of(bytes: &[u8]) -> WidthTable
    requires { form bytes.now ≡ passed }
    ensures { result ≡ table_in bytes.now }
{
    let depth = bytes[value_start(0, Tag::Depth)];
    let levels = levels_in(bytes);
    let mut constants = [0u8; WidthTable::CONSTANTS];
    put(&mut constants, 0, value_in(bytes, Tag::Constants));
    let mut nodes = [0u8; WidthTable::NODE_BYTES];
    put(&mut nodes, 0, value_in(bytes, Tag::Nodes));
    let has_products = has_fifth(bytes);
    let products = products_in(bytes);
    WidthTable::new(depth, levels, constants, nodes, has_products, products)
}

// The table of no bytes.
pub fn empty() -> WidthTable
    ensures { result ≡ empty_table }
{
    WidthTable::new(
        0,
        0,
        [0; WidthTable::CONSTANTS],
        [0; WidthTable::NODE_BYTES],
        false,
        [0; WidthTable::PRODUCT_BYTES],
    )
}

// The table that bytes hold: refusals 1 to 5. A frame of its own keeps what reading holds off the stack while the table is worked with.
#[inline(never)]
pub fn read(bytes: &[u8]) -> Result<WidthTable, Refusal>
    ensures outcome { told result then passed ≡ form bytes.now }
    ensures table { IfOk result (λ t. t ≡ table_read bytes.now) }
{
    form_of(bytes)?;
    Ok(table_of(bytes))
}

// Whether bytes of a right form have a field of this tag: every table has tags 1 to 4.
fn has_tag(bytes: &[u8], tag: Tag) -> bool
    requires { form bytes.now ≡ passed }
    ensures { result ≡ has_tag bytes.now (number_of tag) }
{
    match tag {
        Tag::Products => has_fifth(bytes),
        _ => true,
    }
}

// Where a tag's value starts in the caller's bytes, and its length: 2 for a wrong name, then the form, then 2 for tag 5 where there is none.
pub fn value_place(bytes: &[u8], tag: u8) -> Result<(usize, usize), Refusal>
    ensures { told result ≡ naming bytes.now tag }
{
    let tag = Tag::try_from(tag)?;
    form_of(bytes)?;
    if !has_tag(bytes, tag) {
        return Err(Refusal::WrongTag);
    }
    let levels = levels_in(bytes);
    Ok((value_start(levels, tag), value_length(levels, tag)))
}

// The part of the caller's bytes that holds a tag's value, where `value_place` says that it lies; empty where the name is refused.
pub fn value_of(bytes: &[u8], tag: u8) -> &[u8]
    ensures { result.now ≡ part_at bytes.now (naming bytes.now tag) }
{
    match value_place(bytes, tag) {
        Err(_) => &bytes[..0],
        Ok((start, len)) => &bytes[start..start + len],
    }
}

// Puts a field into its place: its head, then its value.
fn put_field(lent: &mut [u8], levels: u8, tag: Tag, value: &[u8])
    requires { (levels ≤ max_levels) × (length value.now ≡ value_length levels (number_of tag)) × (value_start levels (number_of tag) + value_length levels (number_of tag) ≤ length lent.old) }
    ensures { lent.new ≡ placed levels (number_of tag) value.now lent.old }
{
    let start = value_start(levels, tag);
    let len = value.len();
    let head = [tag.number(), (len / 256) as u8, (len % 256) as u8];
    put(lent, start - HEAD_BYTES, &head);
    put(lent, start, value);
}

// Writes the first four fields of a table of right form over the front of lent bytes.
fn put_four(table: WidthTable, lent: &mut [u8])
    requires { (table.levels ≤ max_levels) × (table_size false table.levels ≤ length lent.old) }
    ensures { lent.new ≡ over (bytes_of (fields false table.levels) table) lent.old }
{
    let levels = table.levels;
    let n = WidthTable::LEVEL_BYTES * (levels as usize);
    put_field(lent, levels, Tag::Depth, &[table.depth]);
    put_field(lent, levels, Tag::Levels, &[levels]);
    put_field(lent, levels, Tag::Constants, &table.constants);
    put_field(lent, levels, Tag::Nodes, &table.nodes[..n]);
}

// The bytes of the whole table: these, and tag 5 where the table has it. A frame of its own keeps it off the stack while the form is judged.
#[inline(never)]
fn put_table(table: WidthTable, lent: &mut [u8])
    requires { (table.levels ≤ max_levels) × (table_size table.has_products table.levels ≤ length lent.old) }
    ensures { lent.new ≡ over (bytes_of_table table) lent.old }
{
    put_four(table, lent);
    if table.has_products {
        let n = WidthTable::LEVEL_PRODUCTS * (table.levels as usize);
        put_field(lent, table.levels, Tag::Products, &table.products[..n]);
    }
}

// Writes the table into lent bytes: refusals 4, 9.
pub fn write(table: WidthTable, lent: &mut [u8]) -> Result<usize, Refusal>
    ensures answer { told result ≡ writing table lent.old }
    ensures bytes { lent.new ≡ bytes_after table lent.old }
{
    if !table.form_right() {
        return Err(Refusal::OutsideLimits);
    }
    let n = table_size(table.has_products, table.levels);
    if lent.len() < n {
        return Err(Refusal::SliceTooShort);
    }
    put_table(table, lent);
    Ok(n)
}

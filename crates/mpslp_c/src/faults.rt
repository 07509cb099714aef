//! Errors as C sees them.

ghost use Rattle.std.specs.Prelude.{◌≡◌, ◌++◌, [], length, drop, codes};
ghost use Rattle.mpslp_c.specs.Faults.{HasFields, RepresentsFault, RepresentsPlace, RepresentsItem, IsFaultSet, IsStoreFaultSet};

use mpslp_conversions::ConvertFault;
use mpslp_model::laws::each_name_is_legal;
use mpslp_model::{Fault, FaultKind, MAX_NAME_LEN, Name, NameAt};

/// Room for a name and a final 0.
const NAME_ROOM: usize = MAX_NAME_LEN + 1;

/// No place in a model.
const NOWHERE: u32 = 0;

/// The objective.
pub(crate) const AT_OBJECTIVE: u32 = 1;

/// A row, by its index.
pub(crate) const AT_ROW: u32 = 2;

/// A column, by its index.
pub(crate) const AT_COLUMN: u32 = 3;

/// An element of the arrays of a caller, by its index.
pub(crate) const AT_ELEMENT: u32 = 4;

/// An error. The text of its kind lives as long as the program, so nothing of it is ever freed.
#[repr(C)]
#[derive(Drop)]
pub struct MpslpFault {
    /// The name of its kind.
    pub kind: &'static [u8],
    /// The line, counted from 1; 0 for an error of the whole text, of arrays, or of a place in a model.
    pub line: u64,
    /// What has the error, or the name that is not legal in LP: nothing, the objective, a row, a column or an element.
    pub place: u32,
    /// The index of that row, column or element.
    pub number: usize,
    /// The length of the name of the row or column that has an error of the whole model; or 0.
    pub name_len: usize,
    /// That name, padded with zeros.
    pub name: [u8; NAME_ROOM],
}

const _: () = prove!(size_of::<MpslpFault>() == 304);

/// The error of an item of arrays: of the objective, a row, a column or an element.
#[derive(Clone, Copy)]
pub(crate) struct ItemFault {
    /// Its kind.
    pub(crate) kind: FaultKind,
    /// What has it.
    pub(crate) place: u32,
    /// The index of that row, column or element; or 0.
    pub(crate) number: usize,
}

/// Why arrays have no text.
#[derive(Drop)]
pub(crate) enum StoreFault {
    /// An item has this error.
    Item(ItemFault),
    /// No item has an error, and the whole has this one.
    Whole(Fault),
    /// The model has a name that is not legal in the format, at this place.
    NotLp(NameAt),
    /// An allocation failed.
    OutOfMemory,
}

/// The error of a text.
fn c_fault(fault: &Fault) -> MpslpFault
    ensures { RepresentsFault fault.now result }
{
    let mut out = MpslpFault {
        kind: fault.kind.text().as_bytes(),
        line: fault.line,
        place: NOWHERE,
        number: 0,
        name_len: 0,
        name: [0; NAME_ROOM],
    };
    if let Some(name) = &fault.name {
        out.name_len = put_name(name, &mut out.name);
    }
    out
}

/// Puts a name into an array, and returns its length.
fn put_name(name: &Name, to: &mut [u8; NAME_ROOM]) -> usize
    ensures len { result ≡ length name.now }
    ensures bytes { to.new ≡ name.now ++ drop (length name.now) to.old }
{
    each_name_is_legal(name);
    let bytes = name.as_bytes();
    to[..bytes.len()].copy_from_slice(bytes);
    bytes.len()
}

/// A name that is not legal in LP, by its place.
fn not_lp(place: u32, number: usize) -> MpslpFault
    ensures { HasFields (codes "NotLp") 0 place number [] result }
{
    MpslpFault {
        kind: b"NotLp",
        line: 0,
        place,
        number,
        name_len: 0,
        name: [0; NAME_ROOM],
    }
}

/// The error of an item, by its place.
fn c_item(fault: ItemFault) -> MpslpFault
    ensures { RepresentsItem fault result }
{
    MpslpFault {
        kind: fault.kind.text().as_bytes(),
        line: 0,
        place: fault.place,
        number: fault.number,
        name_len: 0,
        name: [0; NAME_ROOM],
    }
}

/// The place of a name that is not legal in LP.
fn c_place(at: NameAt) -> MpslpFault
    ensures { RepresentsPlace at result }
{
    match at {
        NameAt::Objective => not_lp(AT_OBJECTIVE, 0),
        NameAt::Row(i) => not_lp(AT_ROW, i),
        NameAt::Column(j) => not_lp(AT_COLUMN, j),
    }
}

/// Sets the error. An allocation that failed leaves it unchanged.
pub(crate) fn set_fault(fault: &ConvertFault, out: &mut MpslpFault)
    ensures { IsFaultSet fault.now out.old out.new }
{
    match fault {
        ConvertFault::First(fault) | ConvertFault::Second(fault) => *out = c_fault(fault),
        ConvertFault::NotLp(place) => *out = c_place(*place),
        ConvertFault::OutOfMemory => {}
    }
}

/// Sets the error of arrays. An allocation that failed leaves it unchanged.
pub(crate) fn set_store_fault(fault: &StoreFault, out: &mut MpslpFault)
    ensures { IsStoreFaultSet fault.now out.old out.new }
{
    match fault {
        StoreFault::Item(fault) => *out = c_item(*fault),
        StoreFault::Whole(fault) => *out = c_fault(fault),
        StoreFault::NotLp(place) => *out = c_place(*place),
        StoreFault::OutOfMemory => {}
    }
}

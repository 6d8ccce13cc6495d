//! The statuses by their names.

ghost use Rattle.std.specs.Prelude.{◌≡◌, map};
ghost use Rattle.hobbydresser_c.specs.StatusTexts.{FillsKnown, name_among, status_rows, status_view};

use crate::buffers::fill;
use crate::status;

/// A status: its number, and its name in the header.
#[derive(Clone, Copy)]
pub struct StatusRow {
    pub number: u32,
    pub name: &'static str,
}

macro_rules! statuses {
    ($($number:literal $name:literal;)*) => {
        [$(StatusRow { number: $number, name: $name }),*]
    };
}

// The statuses, in the order of their numbers.
const STATUSES: [StatusRow; 39] = statuses! {
    0 "HD_OK";
    1 "HD_OUT_OF_MEMORY";
    2 "HD_UNKNOWN_CLIENT";
    3 "HD_UNKNOWN_QUEUE";
    4 "HD_DENIED";
    5 "HD_BUSY";
    6 "HD_NOT_ALLOWED";
    7 "HD_OUT_OF_STEP";
    8 "HD_QUEUE_DOWN";
    9 "HD_NOT_IN_FLIGHT";
    10 "HD_NOT_FINISHED";
    11 "HD_AUDIT_FULL";
    12 "HD_BAD_SIZE";
    13 "HD_TOO_MANY";
    14 "HD_UNKNOWN_OBJECT";
    17 "HD_OTHER_OBJECTS";
    101 "HD_NOT_TOML";
    102 "HD_MISSING_KEY";
    103 "HD_BAD_VALUE";
    104 "HD_UNKNOWN_NAME";
    105 "HD_DOUBLE_NAME";
    106 "HD_TOO_LONG";
    201 "HD_READ_LEXEME";
    202 "HD_READ_SYNTAX";
    203 "HD_READ_PROFILE";
    204 "HD_READ_TOO_LONG";
    301 "HD_CHECK_LABEL";
    302 "HD_CHECK_NAME";
    303 "HD_CHECK_REGISTER";
    304 "HD_CHECK_TYPE";
    305 "HD_CHECK_ARGUMENT";
    306 "HD_CHECK_LARGE";
    307 "HD_CHECK_ADDRESS";
    401 "HD_CLOSED";
    402 "HD_OPEN_ALREADY";
    403 "HD_NO_ENTRY";
    404 "HD_BAD_PLACES";
    405 "HD_NO_SUCH";
    406 "HD_TOO_SHORT";
};

// The statuses, in the order of their numbers.
fn status_rows() -> &'static [StatusRow]
    ensures { map status_view result.now ≡ status_rows }
{
    &STATUSES
}

// The name in the first of some rows that has a number, none where none has it.
fn name_among(rows: &'static [StatusRow], number: u32) -> &'static str
    ensures { result.now ≡ name_among (map status_view rows.now) number }
{
    let mut rest = rows;
    while let [row, others @ ..] = rest {
        if row.number == number {
            return row.name;
        }
        rest = others;
    }
    ""
}

/// The name of a status, and how many bytes it has.
#[unsafe(no_mangle)]
pub extern "C" fn hd_status_text(status: u32, out: &mut [u8], needed: &mut u64) -> u32
    ensures { FillsKnown (name_among status_rows status) result out.old out.new needed.old needed.new }
{
    let name = name_among(status_rows(), status);
    if name.is_empty() {
        return status::NO_SUCH;
    }
    fill(name.as_bytes(), out, needed)
}

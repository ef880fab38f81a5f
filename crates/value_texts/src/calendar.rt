//! Which days there are.

ghost use Rattle.std.specs.Prelude.{◌≤◌, ◌<◌, ◌↔◌, IsTrue};
ghost use Rattle.value_texts.specs.Calendar.{HasDay};

use jiff::civil::Date;

/// Whether the Gregorian calendar, used for all years from 0 to 9999, has this day. Year 0 is a leap year. Takes no
/// memory.
pub fn has_day(year: u16, month: u8, day: u8) -> bool
    requires year { year ≤ 9999 }
    requires month { month < 100 }
    requires day { day < 100 }
    ensures { IsTrue result ↔ HasDay year month day }
{
    Date::new(year as i16, month as i8, day as i8).is_ok()
}

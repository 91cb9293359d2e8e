//! Ports in words.
ghost use Rattle.std.specs.Prelude.{◌≡◌, ◌<◌, ◌^◌, IfOk};
ghost use Rattle.of_ovs_words.specs.Ports.{port_in as port_of};

use crate::numbers::decimal_number;
use crate::port_word::PortWord;
use crate::why::Why;

/// The number of a port: as it is, or of a reserved one by its name. `why` is for a word that is neither. The numbers of 16 bits of reserved ports are
/// refused.
pub fn port_in(why: Why, word: &[u8]) -> Result<u32, Why>
    ensures { result ≡ port_of why word.now }
{
    match decimal_number(0x1_0000_0000, word) {
        Some(0xff00..=0xffff) => Err(Why::Value),
        Some(number) => Ok(number as u32),
        None => match PortWord::named(word) {
            Some(word) => word.number.ok_or(Why::Unknown),
            None => Err(why),
        },
    }
}

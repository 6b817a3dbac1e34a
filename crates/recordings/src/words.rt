use crate::damage::Damage;
use bays::words::BaySentence;
use std::fmt::{self, Formatter, Write};

/// What is wrong with a damaged recording, and what to do.
#[derive(Clone, Copy)]
pub struct DamageSentence(pub Damage);

impl fmt::Display for DamageSentence {
    fn fmt<W: Write>(&self, f: &mut Formatter<W>) -> fmt::Result {
        match self.0 {
            Damage::Ends(_) => {
                f.write_str("The recording ends inside its bay or a call. Pass the whole of it.")
            }
            Damage::Unknown(_) => f.write_str(
                "No call begins with this byte, or there is no such question. Calls begin with 1, 2 or 3, and questions are 0 to 4.",
            ),
            Damage::Bay { fault, .. } => BaySentence(fault).fmt(f),
        }
    }
}

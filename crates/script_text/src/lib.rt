//! The text of a script: a fleet of one top and its minions, and a schedule of turns.
//!
//! The form is this project's own. A text of it has these lines, in this order, and no other. Each ends with a line feed,
//! the last one with it or without.
//!
//! 1. `%fleet`, `nodes:`, `- id: TOP` and `  role: top`.
//! 2. For each of at most 4,096 minions `- id: MINION`, `  role: minion` and `  parent: TOP`. The ids, that of the top among
//!    them, are distinct. Each has 1 to 64 bytes of A-Z, a-z, 0-9, `.`, `_` and `-`, begins with a letter, and is no word
//!    that YAML reads as null or as a flag: `null`, or `true` or `false` in one of their three spellings.
//! 3. `%schedule`, one line for each turn, and `%end`. A turn is `publish MOMENT glob test.ping ["PATTERN"]`,
//!    `send FROM TO N`, `deliver I` or `report JID`, with one space between words.
//!
//! A number is decimal without sign or leading zero, and at most 18,446,744,073,709,551,615. A pattern has 1 to 256 bytes
//! from 0x21 to 0x7E without `"` and `\`. FROM and TO are the ids of the top and of a minion, in either order. A JID has 20 digits.
#![tactic(auto)]

mod draft;
mod lines;
mod names;
mod script;
mod top;
mod turns;

pub use fleet_turns::Turn;
pub use script::{MOST_SCRIPT_BYTES, Script, ScriptFault, read_script};

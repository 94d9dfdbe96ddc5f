// What the codes of answers tell.
ghost use Rattle.std.specs.Prelude.{◌≡◌};
ghost use Rattle.decision.specs.Logs.{word_from};
ghost use Rattle.runlog.specs.Words.{word_in};

use console::Line;

// An answer as a line tells it. Of the containers that gained an item it tells how many they are.
pub enum Told {
    Allow {
        gained: u8,
    },
    Inhibit {
        rule: u8,
    },
    Modify {
        rule: u8,
        substitute: u8,
        gained: u8,
    },
    Rule {
        number: u8,
    },
    Refused {
        number: u8,
    },
}

impl From<u32> for Told {
    ghost from_gives = { λ code told. word_in told ≡ word_from code };

    fn from(code: u32) -> Told {
        let [word, first, second, gained] = code.to_le_bytes();
        match word {
            0 => Told::Allow { gained },
            1 => Told::Inhibit { rule: first },
            2 => Told::Modify {
                rule: first,
                substitute: second,
                gained,
            },
            3 => Told::Rule { number: first },
            _ => Told::Refused { number: first },
        }
    }
}

impl Told {
    // Adds its line: the word, then the numbers. No plainer by Display, which would be a write! for each case.
    pub fn add_to<const N: usize>(self, lines: &mut Line<N>) {
        match self {
            Told::Allow { gained } => add(lines, "allow ", gained),
            Told::Inhibit { rule } => add(lines, "inhibit ", rule),
            Told::Modify {
                rule,
                substitute,
                gained,
            } => {
                add(lines, "modify ", rule);
                add(lines, " ", substitute);
                add(lines, " ", gained);
            }
            Told::Rule { number } => add(lines, "rule ", number),
            Told::Refused { number } => add(lines, "refused ", number),
        }
        lines.push("\n");
    }
}

// Adds a text and a number.
fn add<const N: usize>(lines: &mut Line<N>, text: &str, n: u8) {
    lines.push(text);
    lines.push_number(n as u64);
}

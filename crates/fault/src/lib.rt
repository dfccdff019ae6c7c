// Where a text stops being the beginning of well-formed Base64. The decoder says that a text is not well formed, this function where: it is
// called for such texts alone.
#![tactic(auto)]

ghost use Rattle.std.specs.Prelude.{◌≡◌};
ghost use Rattle.fault.specs.Fault.{Place, standing};

use decoder::Table;

// How many characters of a group of four can stand there, each after those before it; 0 is a missing one.
fn standing(table: &Table, a: u8, b: u8, c: u8, d: u8) -> usize
    ensures { result ≡ standing a b c d }
{
    let Some(_) = table.number(a) else {
        return 0;
    };
    let Some(q) = table.number(b) else {
        return 1;
    };
    if c == b'=' {
        if q % 16 != 0 {
            return 2;
        }
        if d != b'=' {
            return 3;
        }
        return 4;
    }
    let Some(r) = table.number(c) else {
        return 2;
    };
    if d == b'=' {
        if r % 4 != 0 {
            return 3;
        }
        return 4;
    }
    let Some(_) = table.number(d) else {
        return 3;
    };
    4
}

// The place of the first character at which no well-formed text can begin with what stands up to there, or the text's length where there is none.
pub fn place(text: &[u8]) -> usize
    ensures { Place text.now result }
{
    let table = Table::new();
    for i in (0..text.len()).step_by(4) {
        let b = laws::byte_at(text, i + 1);
        let c = laws::byte_at(text, i + 2);
        let d = laws::byte_at(text, i + 3);
        let k = standing(&table, text[i], b, c, d);
        if k < 4 {
            return i + k;
        }
        if d == b'=' {
            return i + 4;
        }
    }
    text.len()
}

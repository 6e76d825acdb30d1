// The reserved words.
ghost use Rattle.std.specs.Prelude.{◌≡◌, ◌<◌, ◌≤◌, length};
ghost use Rattle.symbols.specs.Symbols.{among, reserved};
ghost use Rattle.symbols.specs.Pieces.{LONGEST, pieces};

use super::letters::in_masks;
use basics::same;

// As many letters as a word has at most.
const LONGEST: usize = 21;

// The letters that words begin with, as masks.
const FIRST_LOW: u64 = 0x0000_0002_0000_0000;

const FIRST_HIGH: u64 = 0x000d_30fa_8008_4114;

// The letters that words end with, as masks.
const LAST_LOW: u64 = 0x0000_0002_0000_0000;

const LAST_HIGH: u64 = 0x001d_d1e8_8200_1080;

// The words by their lengths, those of one length side by side.
const WORDS: [u8; 387] =
    *b"!_asletparpopechoexitpushmatchresetBINARYexistsforallSTRINGassertDECIMALNUMERALget-infoset-infocheck-satget-modelget-proofget-valueset-logicdefine-funget-optionset-optionHEXADECIMALdeclare-fundefine-sortdeclare-sortdeclare-constdefine-fun-recget-assertionsget-assignmentget-unsat-coredefine-funs-recdeclare-datatypereset-assertionsdeclare-datatypescheck-sat-assumingget-unsat-assumptions";

// Where the words of n letters start; they end where those of n + 1 start.
const PLACES: [usize; 23] = [
    0, 0, 2, 4, 13, 25, 35, 65, 79, 95, 140, 170, 203, 215, 228, 284, 299, 331, 348, 366, 366, 366,
    387,
];

// The name is one of the words, which are as long as the name and stand side by side.
fn is_among(name: &[u8], words: &[u8]) -> bool
    requires { 0 < length name.now }
    ensures { result ≡ among name.now (pieces (length name.now) words.now) }
{
    let n = name.len();
    let mut at = 0;
    while n <= words.len() - at {
        let stop = at + n;
        if same(name, &words[at..stop]) {
            return true;
        }
        at = stop;
    }
    false
}

// A reserved word. The table is laid on the stack at each call.
fn is_in_table(name: &[u8]) -> bool
    requires { (0 < length name.now) × (length name.now ≤ LONGEST) }
    ensures { result ≡ reserved name.now }
{
    let n = name.len();
    let words = WORDS;
    let start = PLACES[n];
    let end = PLACES[n + 1];
    is_among(name, &words[start..end])
}

// A reserved word. Most names are none by their first or last letter, which spares the table.
pub fn is_reserved(name: &[u8]) -> bool
    ensures { result ≡ reserved name.now }
{
    let n = name.len();
    if n == 0 {
        return false;
    }
    if LONGEST < n {
        return false;
    }
    if !in_masks(FIRST_LOW, FIRST_HIGH, name[0]) {
        return false;
    }
    if !in_masks(LAST_LOW, LAST_HIGH, name[n - 1]) {
        return false;
    }
    is_in_table(name)
}

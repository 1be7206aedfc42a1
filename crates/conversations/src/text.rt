// The instruction that a word spells.
use text_lines::parse::decimal;

// The number that three digits spell, as every instruction has.
pub fn instruction(word: &[u8]) -> Option<u32> {
    if word.len() == 3 { decimal(word) } else { None }
}

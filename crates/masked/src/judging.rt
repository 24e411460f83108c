// The judgement of a stratified program, over masks.
ghost use Rattle.closure.specs.Bits.{bit_row};
ghost use Rattle.game.specs.Derives.{Settles, SmallestClosed, derives_at};
ghost use Rattle.programs.specs.Programs.{rules_of};
ghost use Rattle.solving.specs.Judged.{Judged};
ghost use Rattle.solving.specs.Levels.{level_in};

use crate::job::MaskJob;
use crate::level::MaskLevel;
use crate::step::MaskPicked;
use closure::closing::closure;
use closure::mask::Mask;
use solving::stratified::Stratified;

// The set with all that follows for heads of this level, where the levels below it are settled.
fn settle_level(stratified: &Stratified<96>, level: usize, set: Mask) -> Mask
    ensures { SmallestClosed 96 (derives_at (rules_of stratified.now.program) (level_in stratified.now.levels.of) level (bit_row set.bits)) (bit_row set.bits) (bit_row result.bits) }
{
    closure(
        &MaskPicked {
            program: stratified.program(),
            picker: MaskLevel {
                levels: stratified.levels(),
                level,
                against: set,
            },
        },
        &set,
    )
}

// The given atoms and all that follows from them, one level after another.
fn settle(stratified: &Stratified<96>, given: Mask) -> Mask
    ensures { Settles 96 (rules_of stratified.now.program) (level_in stratified.now.levels.of) 0 96 (bit_row given.bits) (bit_row result.bits) }
{
    let mut set = given;
    for level in 0..96 {
        if stratified.used().at(level) {
            set = settle_level(stratified, level, set);
        }
    }
    set
}

// Has the program an answer set with these atoms given?
pub fn holds(stratified: &Stratified<96>, given: Mask) -> bool
    ensures { Judged (rules_of stratified.now.program) (bit_row given.bits) result }
{
    let set = settle(stratified, given);
    let job = MaskJob {
        program: stratified.program(),
        given,
    };
    !job.breaks(set, set)
}

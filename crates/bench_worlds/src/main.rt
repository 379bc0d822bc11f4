//! Times the steps of a world beside those of the plain evaluator, over the same grids. Without words it runs shortly and
//! tells no times; with the number of trees, and that of helpers after it, it tells the nanoseconds of a step for each leaf.
//! With a third number it tells of a moving front instead: of how many leaves the fullest tree owns at the end, and the times
//! of the steps, where the trees stay and where they are cut anew after every so many steps.
#![tactic(auto)]

mod files;
mod front;
mod timed;

use crate::files::{
    ADAPTIVE_WAVE, FRONT, LARGEST, NINE_LEAVES, PLANE_FIVE, PLANE_FOUR, SMALL_FRONT, SPACE_THREE,
};
use crate::front::{tell_front, tell_shares};
use crate::timed::tell;
use anyhow::Result;
use std::env;

fn main(rt: HostRuntime) -> Result<()> {
    let mut words = env::args(&rt)?;
    let _program = words.next();
    let mut numbers = words.filter_map(|text| text.as_str().parse::<u32>().ok());
    let trees = numbers.next();
    let workers = numbers.next().unwrap_or(0);
    let every = numbers.next();
    match (trees, every) {
        (Some(count), Some(_)) => {
            tell_front(&rt, "trees that stay", FRONT, count, workers, None)?;
            tell_front(&rt, "trees cut anew", FRONT, count, workers, every)?;
        }
        (Some(_), None) => {
            tell(
                &rt,
                "plane, level 4, 6,561 leaves",
                PLANE_FOUR,
                trees,
                workers,
            )?;
            tell(
                &rt,
                "plane, level 5, 59,049 leaves",
                PLANE_FIVE,
                trees,
                workers,
            )?;
            tell(&rt, "plane, 177,777 leaves", LARGEST, trees, workers)?;
            tell(&rt, "plane, adaptive wave", ADAPTIVE_WAVE, trees, workers)?;
            tell(
                &rt,
                "space, level 3, 19,683 leaves",
                SPACE_THREE,
                trees,
                workers,
            )?;
        }
        (None, _) => {
            tell(&rt, "nine leaves", NINE_LEAVES, None, 0)?;
            tell_shares(&rt, "trees that stay", SMALL_FRONT, None)?;
            tell_shares(&rt, "trees cut anew", SMALL_FRONT, Some(4))?;
        }
    }
    Ok(())
}

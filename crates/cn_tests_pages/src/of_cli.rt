//! The caller of the page of cn_cli.

ghost use Rattle.std.specs.Prelude.{IfSome};
ghost use Rattle.cn_tables.specs.Widths.{IsWidth};

use cn_cli::{Job, parse_words};
use std::alloc::Global;

/// The width that the words name.
pub fn width_named(alloc: Global, words: Vec<String>) -> Option<u32>
    ensures { IfSome result IsWidth }
{
    match parse_words(alloc, words).ok()? {
        Job::Run(options) => Some(options.net().width()),
        Job::Replay(net) => Some(net.width()),
        Job::Check(width) | Job::CheckLarge(width) => Some(width),
        Job::Show(net) => Some(net.width()),
    }
}

//! The caller of the page of cn_core.

ghost use Rattle.std.specs.Prelude.{◌≡◌, ◌+◌, ◌<◌, ◌≤◌, length};
ghost use Rattle.cn_core.specs.State.{came_in, inside_in};

/// How many left by exit 0: at most as many as came in.
pub fn counted(core: &cn_core::Core) -> u64
    requires { 0 < core.now.network.table.width }
    ensures { result ≤ came_in core.now }
{
    core.exit_count(0)
}

/// The clients of the epoch are of the base once it is carried.
pub fn carried(core: &mut cn_core::Core) -> u64
    requires quiet { inside_in core.old ≡ 0 }
    requires few { core.old.base + length core.old.clients ≤ 1000 }
    ensures { result ≡ core.old.base + length core.old.clients }
{
    core.carry();
    core.base()
}

// A thread's number in its group and its number in the launch, as two types, with the one conversion.
#![tactic(auto)]

ghost use Rattle.std.specs.Prelude.{◌≡◌, ◌+◌, ◌*◌, ◌<◌, ◌≤◌};

#[derive(Clone, Copy)]
pub struct InGroup {
    pub number: u32,
}

#[derive(Clone, Copy)]
pub struct InLaunch {
    pub number: u32,
}

// `Shape.launch_number`. A lane behind the group's last thread has a number too, so that a computing row needs no test.
pub fn in_launch(group: u32, threads: u32, t: InGroup) -> InLaunch
    requires { (group < 8) × (threads ≤ 32) × (t.number < 32) }
    ensures { (result.number ≡ group * threads + t.number) × (result.number < 256) }
{
    InLaunch {
        number: group * threads + t.number,
    }
}

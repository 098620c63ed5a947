// The launch that a file gives: its lines read, its table checked.
#![tactic(auto)]

ghost use Rattle.std.specs.Prelude.{◌*◌, ◌≤◌, length};
ghost use Rattle.filelaunch.specs.Founds.{FoundIs, LoadedFrom};

use spec::Refusal;

// `ends` holds, at each WHILE of the launch's table, the row of its ENDWHILE.
#[derive(Clone, Copy)]
pub struct Found {
    pub launch: launchfile::Launch,
    pub ends: [u8; 256],
}

// A launch as it is handed to its run: what its groups run by, and the words of all own cells and of the global ones.
#[derive(Clone, Copy)]
pub struct Loaded<'a> {
    pub kernel: layout::Kernel<'a>,
    pub cells: &'a [u32],
    pub global: &'a [u32],
}

impl Found {
    // The launch that was found, over these common cells.
    pub fn over<'a>(&'a self, common: &'a [u32]) -> Loaded<'a>
        requires { (4 * self.now.launch.rows ≤ length self.now.launch.table)
            × (self.now.launch.count ≤ length self.now.launch.cells) × (self.now.launch.shared ≤ length self.now.launch.global) }
        ensures { LoadedFrom self.now common.now result }
    {
        let launch = &self.launch;
        Loaded {
            kernel: layout::Kernel {
                table: launch.table_bytes(),
                ends: &self.ends,
                threads: launch.threads,
                each: launch.each,
                groups: launch.groups,
                limit: launch.limit,
                common,
            },
            cells: launch.own_words(),
            global: launch.global_words(),
        }
    }
}

// The refusal of the file's lines, or that of its table; or the launch.
pub fn file_launch(file: &[u8]) -> Result<Found, Refusal>
    ensures { FoundIs file.now result }
{
    // Built around the launch, whose bytes are then copied once less.
    let mut found = Found {
        launch: launchfile::read_launch(file)?,
        ends: [0; 256],
    };
    found.ends = reader::read_table(found.launch.table_bytes())?;
    Ok(found)
}

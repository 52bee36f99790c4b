// The arguments of the program.
use reports::Asked;
use std::env::Args;

// What the arguments ask for.
#[derive(Default, Drop)]
pub struct Command {
    pub block: bool,
    cut: Option<usize>,
    hide: Option<String>,
    total: bool,
}

impl Command {
    // The command that the arguments give, if they give one.
    pub fn read(args: Args) -> Option<Command> {
        let mut command = Command::default();
        // The first is the program's own name.
        let mut args = args.skip(1);
        while let Some(arg) = args.next() {
            match arg.as_str() {
                "block" => command.block = true,
                "total" => command.total = true,
                "cut" => command.cut = Some(args.next()?.parse::<usize>().ok()?),
                // No node has an empty name, so an empty one asks for nothing.
                "hide" => command.hide = Some(args.next()?).filter(|name| !name.is_empty()),
                _ => return None,
            }
        }
        Some(command)
    }

    // Whether all nodes are asked for, and nothing else.
    pub fn is_plain(&self) -> bool {
        self.cut.is_none() && self.hide.is_none() && !self.total
    }

    pub fn asked(&self) -> Asked<'_> {
        Asked {
            cut: self.cut,
            hide: self.hide.as_ref().map(|name| name.as_bytes()),
            total: self.total,
        }
    }
}

// Applies the update in the current folder.
#![tactic(auto)]

use package::Paths;

fn main(rt: HostRuntime) {
    package::update(
        &rt,
        Paths {
            list: b"system.transfer.list",
            image: b"system.img",
            data: b"system.new.dat",
            patch: b"system.patch.dat",
            copy: b"system.img.updated",
        },
    );
}

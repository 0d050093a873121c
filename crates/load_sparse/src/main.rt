// Reads the sparse file in the current folder over the image there.
#![tactic(auto)]

use package::load::{Paths, load_sparse};

fn main(rt: HostRuntime) {
    load_sparse(
        &rt,
        Paths {
            file: b"system.simg",
            image: b"system.img",
            copy: b"system.img.updated",
        },
    );
}

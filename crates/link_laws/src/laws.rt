//! What a node takes of a pull server in memory. The calls do nothing but call laws; their clauses are the laws.
ghost use Rattle.link_laws.specs.PulledParts.{PulledPartsAreOfTheShelf};
ghost use Rattle.link_laws.specs.ShelfContents.{ContentsAreOfTheShelf};

use dsc_outside::Disk;
use http_frames::messages_read_back;
use pull_outside::Shelf;
use pull_server::replies_are_of_the_shelf;
use pull_serving::links_are_heard;

/// A content or a package that is taken of an exchange with a server in memory is an item of its shelf, where that shows what it holds, and the
/// server gave it under its checksum; below the path of a pull server it is the one that was asked for.
pub fn contents_are_of_the_shelf<D: Disk, F: Shelf>()
    ensures { ContentsAreOfTheShelf D.Disk F.Shelf }
{
    messages_read_back();
    replies_are_of_the_shelf();
    links_are_heard::<D, F>();
}

/// A part that a node pulls over a link to a server in memory is an item of its shelf, where that shows what it holds, and the server gave it
/// under its checksum. It is the configuration of its name, where it has one and the URL of the node's server has the path of a pull server.
pub fn pulled_parts_are_of_the_shelf<D: Disk, F: Shelf>()
    ensures { PulledPartsAreOfTheShelf D.Disk F.Shelf }
{
    contents_are_of_the_shelf::<D, F>();
}

// Numbers of processes, containers, descriptors, names and sorts of mapping, each a type of its own (document 01, The box). They are built after their range
// was tested. They have no bound in their type, since lookups take any number; what stores by them asks for it.
#[derive(Clone, Copy)]
pub struct Process(pub u8);

#[derive(Clone, Copy)]
pub struct Container(pub u8);

#[derive(Clone, Copy)]
pub struct Descriptor(pub u8);

#[derive(Clone, Copy)]
pub struct Name(pub u8);

// Mapped for reading, or both ways (document 02, Paper 4).
#[derive(Clone, Copy)]
pub enum Sort {
    ToRead,
    BothWays,
}

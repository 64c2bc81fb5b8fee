// Where the labels, starts and rules of a table stand in its bytes, each in the order of the file.
ghost use Rattle.std.specs.Prelude.{◌≡◌, ◌<◌};

// An index of at most 128 labels, 128 starts and 128 rules.
#[derive(Drop)]
pub struct TableIndex {
    // Where the name of each label begins, and 128 places later where it ends.
    pub names: [u16; 256],
    pub start_types: [u16; 128],
    pub rule_types: [u16; 128],
    pub rule_labels: [u16; 128],
    pub contents_from: [u16; 128],
    pub contents_to: [u16; 128],
    pub labels: usize,
    pub starts: usize,
    pub rules: usize,
}

impl TableIndex {
    ghost use Rattle.reader.specs.TableIndex.{label_from, label_to, start_type, rule_type, rule_label, content_from, content_to};
    ghost use Rattle.reader.specs.TableIndex.{label_count, start_count, rule_count, FreshIndex, HasRows};
    ghost use Rattle.reader.specs.TableIndex.{with_none, with_label_at, with_start_of, with_rule_at};

    // An index of no labels, starts or rules.
    pub fn new() -> TableIndex
        ensures { FreshIndex result }
    {
        TableIndex {
            names: [0; 256],
            start_types: [0; 128],
            rule_types: [0; 128],
            rule_labels: [0; 128],
            contents_from: [0; 128],
            contents_to: [0; 128],
            labels: 0,
            starts: 0,
            rules: 0,
        }
    }

    // Where the name of a label begins.
    pub fn label_from(&self, i: usize) -> usize
        requires { i < 128 }
        ensures { result ≡ label_from self.now i }
    {
        usize::from(self.names[i])
    }

    // Where it ends.
    pub fn label_to(&self, i: usize) -> usize
        requires { i < 128 }
        ensures { result ≡ label_to self.now i }
    {
        usize::from(self.names[128 + i])
    }

    // The type of a start.
    pub fn start_type(&self, i: usize) -> usize
        requires { i < 128 }
        ensures { result ≡ start_type self.now i }
    {
        usize::from(self.start_types[i])
    }

    // The type of a rule.
    pub fn rule_type(&self, i: usize) -> usize
        requires { i < 128 }
        ensures { result ≡ rule_type self.now i }
    {
        usize::from(self.rule_types[i])
    }

    // Its label.
    pub fn rule_label(&self, i: usize) -> usize
        requires { i < 128 }
        ensures { result ≡ rule_label self.now i }
    {
        usize::from(self.rule_labels[i])
    }

    // Where its content begins.
    pub fn content_from(&self, i: usize) -> usize
        requires { i < 128 }
        ensures { result ≡ content_from self.now i }
    {
        usize::from(self.contents_from[i])
    }

    // Where its content ends.
    pub fn content_to(&self, i: usize) -> usize
        requires { i < 128 }
        ensures { result ≡ content_to self.now i }
    {
        usize::from(self.contents_to[i])
    }

    // How many labels there are.
    pub fn label_count(&self) -> usize
        ensures { result ≡ label_count self.now }
    {
        self.labels
    }

    // How many starts.
    pub fn start_count(&self) -> usize
        ensures { result ≡ start_count self.now }
    {
        self.starts
    }

    // How many rules.
    pub fn rule_count(&self) -> usize
        ensures { result ≡ rule_count self.now }
    {
        self.rules
    }

    // Leaves no labels, starts or rules.
    pub fn clear_index(&mut self)
        ensures cleared { self.new ≡ with_none self.old }
        ensures rows { HasRows self.old }
    {
        self.labels = 0;
        self.starts = 0;
        self.rules = 0;
    }

    // One label more.
    pub fn add_label(&mut self, from: usize, to: usize)
        requires { (label_count self.old < 128) × (from < 65536) × (to < 65536) }
        ensures { self.new ≡ with_label_at self.old from to }
    {
        let n = self.labels;
        self.names[n] = from as u16;
        self.names[128 + n] = to as u16;
        self.labels = n + 1;
    }

    // One start more.
    pub fn add_start(&mut self, ty: u8)
        requires { start_count self.old < 128 }
        ensures { self.new ≡ with_start_of self.old ty }
    {
        let n = self.starts;
        self.start_types[n] = u16::from(ty);
        self.starts = n + 1;
    }

    // One rule more.
    pub fn add_rule(&mut self, ty: u8, label: u8, from: usize, to: usize)
        requires { (rule_count self.old < 128) × (from < 65536) × (to < 65536) }
        ensures { self.new ≡ with_rule_at self.old ty label from to }
    {
        let n = self.rules;
        self.rule_types[n] = u16::from(ty);
        self.rule_labels[n] = u16::from(label);
        self.contents_from[n] = from as u16;
        self.contents_to[n] = to as u16;
        self.rules = n + 1;
    }
}
